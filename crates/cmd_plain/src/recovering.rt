//! The command `recover`: what a journal stands for.
ghost use Rattle.std.specs.Prelude.{◌≡◌, ◌++◌, map, IfOk, OnOk};
ghost use Rattle.base_types.specs.Contents.{facts_of};
ghost use Rattle.base_types.specs.Meanings.{fact_of};
ghost use Rattle.cmd_plain.specs.Journaled.{commits_line, damaged_line, recovered_text, recovering, repository_line, tuple_lines};

use base_devices::MemDisk;
use base_types::{Memory, Tuple};
use cmd_frame::{Command, Ending, Output, Refusal};
use lang_schema::{Schema, print_tuple};
use run_journal::{RecoverFault, Recovered, recover};
use std::alloc::Global;

/// `recover`: prints the number of commits of the journal with which the input begins, and the repository that they leave.
#[derive(Clone, Copy, Debug)]
pub struct Recover;

// Adds tuples, each on a line.
fn push_lines(
    alloc: Global,
    text: &mut Vec<u8>,
    schema: &Schema,
    tuples: &[Tuple],
) -> Result<(), Memory>
    ensures { OnOk result
        (text.new.items ≡ text.old.items ++ tuple_lines schema.now (map fact_of tuples.now)) }
{
    for tuple in tuples {
        text.extend_from_slice(&print_tuple(alloc, schema, tuple, false)?)?;
        text.push(b'\n')?;
    }
    Ok(())
}

// The line with the number of commits.
fn commits_line(alloc: Global, commits: u32) -> Result<Vec<u8>, Memory>
    ensures { IfOk result (λ line. line.items ≡ commits_line commits) }
{
    let line = format!(in alloc; "commits {commits}\n")?;
    Ok(line.into_bytes())
}

// The line with the number of tuples.
fn repository_line(alloc: Global, tuples: usize) -> Result<Vec<u8>, Memory>
    ensures { IfOk result (λ line. line.items ≡ repository_line tuples) }
{
    let line = format!(in alloc; "repository {tuples}\n")?;
    Ok(line.into_bytes())
}

// The text for a journal.
fn recovered_text(alloc: Global, recovered: &Recovered) -> Result<Vec<u8>, Memory>
    ensures { IfOk result (λ text. text.items ≡ recovered_text recovered.now.commits
        recovered.now.session.schema (facts_of recovered.now.repository)) }
{
    let mut text = commits_line(alloc, recovered.commits)?;
    text.extend_from_slice(&repository_line(alloc, recovered.repository.len())?)?;
    let tuples = recovered.repository.as_slice();
    push_lines(alloc, &mut text, &recovered.session.schema, tuples)?;
    Ok(text)
}

// The text for a journal, which is then dropped.
fn whole_text(alloc: Global, recovered: Recovered) -> Result<Vec<u8>, Memory>
    ensures { IfOk result (λ text. text.items ≡ recovered_text recovered.commits
        recovered.session.schema (facts_of recovered.repository)) }
{
    recovered_text(alloc, &recovered)
}

// The line that says where the bytes are damaged.
fn damaged_line(alloc: Global, place: u64) -> Result<Vec<u8>, Memory>
    ensures { IfOk result (λ line. line.items ≡ damaged_line place) }
{
    let line = format!(in alloc; "youtopia: journal damaged at {place}\n")?;
    Ok(line.into_bytes())
}

impl Command for Recover {
    ghost gives = { λ _ input output. recovering input output };

    fn run(&self, alloc: Global, input: &[u8]) -> Result<Output, Memory> {
        let mut disk = MemDisk::of(alloc, input.to_vec(alloc)?, Vec::new(alloc))?;
        match recover(alloc, &mut disk) {
            Ok(recovered) => Ok(Output::Text(Ending::Ended, whole_text(alloc, recovered)?)),
            Err(RecoverFault::Damaged(place)) => Ok(Output::Refused(
                Refusal::Damaged,
                damaged_line(alloc, place)?,
            )),
            Err(RecoverFault::DiskFault) => unreachable!(),
            Err(RecoverFault::Memory) => Err(Memory),
        }
    }
}
