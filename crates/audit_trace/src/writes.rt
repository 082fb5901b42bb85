// The writes of a step.
ghost use Rattle.std.specs.Prelude.{◌≡◌, true, ◌∷◌, map, IfOk};
ghost use Rattle.base_types.specs.Meanings.{change_of, fact_of};
ghost use Rattle.def_language.specs.Printing.{tuple_text};
ghost use Rattle.base_json.specs.Lines.{with_json, with_all};
ghost use Rattle.audit_trace.specs.Traces.{write_json, write_text, writes_json};

use base_json::Line;
use base_types::{Tuple, Write};
use def_memory::Memory;
use lang_schema::{Schema, print_tuple};
use std::alloc::Global;

// The sign and the printed tuple.
fn signed(alloc: Global, schema: &Schema, sign: u8, tuple: &Tuple) -> Result<Vec<u8>, Memory>
    ensures { IfOk result (λ text.
        text.items ≡ sign ∷ tuple_text schema.now true (fact_of tuple.now)) }
{
    let printed = print_tuple(alloc, schema, tuple, true)?;
    let mut text = Vec::new(alloc);
    text.push(sign)?;
    text.extend_from_slice(printed.as_slice())?;
    Ok(text)
}

fn write_text(alloc: Global, schema: &Schema, write: &Write) -> Result<Vec<u8>, Memory>
    ensures { IfOk result (λ text. text.items ≡ write_text schema.now (change_of write.now)) }
{
    match write {
        Write::Insert(tuple) => signed(alloc, schema, b'+', tuple),
        Write::Delete(tuple) => signed(alloc, schema, b'-', tuple),
    }
}

#[tactic(auto, using(base_json::proofs::Adding::all_more))]
fn with_each_write(
    alloc: Global,
    mut line: Line,
    schema: &Schema,
    writes: &[Write],
) -> Result<Line, Memory>
    ensures { IfOk result (λ l.
        l ≡ with_all line (map (write_json schema.now) (map change_of writes.now))) }
{
    for write in writes {
        let text = write_text(alloc, schema, write)?;
        line = line.string(text.as_slice())?;
    }
    Ok(line)
}

// The list of the writes.
#[tactic(auto, using(base_json::proofs::Adding::listed))]
pub(crate) fn with_writes(
    alloc: Global,
    line: Line,
    schema: &Schema,
    writes: &[Write],
) -> Result<Line, Memory>
    ensures { IfOk result (λ l.
        l ≡ with_json line (writes_json schema.now (map change_of writes.now))) }
{
    with_each_write(alloc, line.begin_array()?, schema, writes)?.end_array()
}
