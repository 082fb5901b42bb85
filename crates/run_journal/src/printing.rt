// The text of a commit.
ghost use Rattle.std.specs.Prelude.{◌≡◌, ◌++◌, ◌∷◌, [], false, map, IfOk, OnOk};
ghost use Rattle.base_types.specs.Meanings.{change_of, fact_of};
ghost use Rattle.def_language.specs.Printing.{tuple_text};
ghost use Rattle.def_chase.specs.Values.{outer};
ghost use Rattle.run_journal.specs.Format.{commit_line, commit_text, logged, logged_one, write_lines};

use crate::Commit;
use base_types::{FORCE_RELATION, Memory, Tuple, Write};
use lang_schema::{Schema, print_tuple};
use std::alloc::Global;

// Adds the line of a write of a tuple, by its sign.
fn push_tuple(
    alloc: Global,
    text: &mut Vec<u8>,
    schema: &Schema,
    sign: u8,
    tuple: &Tuple,
) -> Result<(), Memory>
    ensures { OnOk result
        (text.new.items
        ≡ text.old.items
        ++ (sign ∷ (tuple_text schema.now false (outer (fact_of tuple.now)) ++ 10 ∷ []))) }
{
    let fact = print_tuple(alloc, schema, tuple, false)?;
    text.push(sign)?;
    text.extend_from_slice(&fact)?;
    text.push(b'\n')?;
    Ok(())
}

// Adds the line of a write, unless it says which mapping is in force.
fn push_write(
    alloc: Global,
    text: &mut Vec<u8>,
    schema: &Schema,
    write: &Write,
) -> Result<(), Memory>
    ensures { OnOk result
        (text.new.items
        ≡ text.old.items ++ write_lines schema.now (logged_one (change_of write.now))) }
{
    let (sign, tuple) = match write {
        Write::Insert(tuple) => (b'+', tuple),
        Write::Delete(tuple) => (b'-', tuple),
    };
    if tuple.relation == FORCE_RELATION {
        return Ok(());
    }
    push_tuple(alloc, text, schema, sign, tuple)
}

// Adds the lines of writes, in order.
fn push_writes(
    alloc: Global,
    text: &mut Vec<u8>,
    schema: &Schema,
    writes: &[Write],
) -> Result<(), Memory>
    ensures { OnOk result
        (text.new.items
        ≡ text.old.items ++ write_lines schema.now (logged (map change_of writes.now))) }
{
    for write in writes {
        push_write(alloc, text, schema, write)?;
    }
    Ok(())
}

/// The first line of the commit of this number.
#[tactic(auto, unfolding(crate::specs::Format::commit_line))]
pub(crate) fn commit_line(alloc: Global, number: u32) -> Result<Vec<u8>, Memory>
    ensures { IfOk result (λ line. line.items ≡ commit_line number) }
{
    let line = format!(in alloc; "commit {number}\n")?;
    Ok(line.into_bytes())
}

/// The text of a commit: its number, and its writes in their outer forms.
pub(crate) fn commit_text(
    alloc: Global,
    schema: &Schema,
    commit: &Commit,
) -> Result<Vec<u8>, Memory>
    ensures { IfOk result (λ text.
        text.items
        ≡ commit_text schema.now commit.now.number
        (logged (map change_of commit.now.writes.items))) }
{
    let mut text = commit_line(alloc, commit.number)?;
    push_writes(alloc, &mut text, schema, commit.writes.as_slice())?;
    Ok(text)
}
