//! Explanations, whole and broken, and what the checker says of them.
//!
//! The input has sessions, one after the other. For each tuple that a session's serial run leaves, by its number, one line of the
//! output says whether the checker accepts the tuple's explanation. A further line follows for each reason and each way to break
//! it.
#![tactic(auto)]

ghost use Rattle.std.specs.Prelude.{◌≤◌, length};

mod breaking;
mod judging;

use crate::judging::table;
use base_types::Memory;
use lang_reader::{ReadFailure, read_session};
use run_base::base_violation;
use run_serial::base_of;
use std::alloc::Global;

// The most bytes that a session here may have.
const LIMIT: usize = 65_536;

// The output for a session, if the bytes spell one whose base meets its mappings; otherwise empty.
fn told(alloc: Global, text: &[u8]) -> Result<String, Memory> {
    if text.len() > LIMIT {
        return Ok(String::new(alloc));
    }
    told_of(alloc, text)
}

// The output for a session of at most `LIMIT` bytes.
fn told_of(alloc: Global, text: &[u8]) -> Result<String, Memory>
    requires short { length text.now ≤ 65536 }
{
    let session = match read_session(alloc, text) {
        Ok(session) => session,
        Err(ReadFailure::Fault(_)) => return Ok(String::new(alloc)),
        Err(ReadFailure::Memory) => return Err(Memory),
    };
    let base = base_of(alloc, &session)?;
    match base_violation(alloc, &session, &base)? {
        Some(_) => Ok(String::new(alloc)),
        None => table(alloc, &session),
    }
}

fn main(rt: HostRuntime) -> anyhow::Result<()> {
    let alloc = rt.alloc();
    let mut text = Vec::new(alloc);
    for line in rt.lines(alloc) {
        let line = line?;
        text.extend_from_slice(line.as_bytes())?;
        text.push(b'\n')?;
        if line.as_str() == "end" {
            println!(rt; "session")?;
            print!(rt; "{}", told(alloc, &text)?)?;
            text.clear();
        }
    }
    Ok(())
}
