//! Standard input: its lines, and the part of it that belongs to a line.

use crate::loading::Fed;
use def_memory::Memory;
use std::alloc::Global;
use std::io::{self, BufRead, BufReader, ErrorKind, Read};
use std::rt::Stdin;
use ws_command::{Change, Command, Source};
use ws_grammar::{Names, lines_of, read_command};
use ws_log::reason;

/// Standard input, read ahead.
#[derive(Drop)]
pub(crate) struct Input {
    reader: BufReader<Stdin>,
}

// The greatest number of lines whose bytes are kept; a `load` of more lines is refused in any case.
const MOST: u64 = 1_000_000;

impl Input {
    /// Standard input from its beginning.
    pub(crate) fn new(rt: &HostRuntime) -> Result<Input, Memory> {
        match BufReader::new(rt.alloc(), rt.stdin()) {
            Ok(reader) => Ok(Input { reader }),
            Err(_) => Err(Memory),
        }
    }

    /// The next line with its line feed; empty at the end of the input.
    pub(crate) fn line(&mut self, alloc: Global) -> io::Result<Vec<u8>> {
        let mut line = Vec::new(alloc);
        self.reader.read_until(b'\n', &mut line)?;
        Ok(line)
    }

    /// The next `count` lines, or fewer if the input ends.
    pub(crate) fn lines(&mut self, alloc: Global, count: u64) -> io::Result<Fed> {
        let mut bytes = Vec::new(alloc);
        let mut lines = 0u64;
        for _ in 0..count {
            let line = self.line(alloc)?;
            if line.is_empty() {
                break;
            }
            lines = lines.saturating_add(1);
            if count <= MOST {
                bytes.extend_from_slice(line.as_slice())?;
            }
        }
        Ok(Fed { bytes, lines })
    }

    /// The rest of the input.
    pub(crate) fn rest(&mut self, alloc: Global) -> io::Result<Fed> {
        let mut bytes = Vec::new(alloc);
        self.reader.read_to_end(&mut bytes)?;
        Ok(Fed { bytes, lines: 0 })
    }
}

/// The part of standard input that belongs to a command given by the program's words; if it cannot be read, the words of the
/// fault.
pub(crate) fn fed_by(
    rt: &HostRuntime,
    input: &mut Input,
    line: &str,
) -> Result<Result<Option<Fed>, String>, Memory> {
    let alloc = rt.alloc();
    let count = lines_of(line);
    let read = if 0 < count {
        input.lines(alloc, count)
    } else if takes_all(alloc, line) {
        input.rest(alloc)
    } else {
        return Ok(Ok(None));
    };
    match read {
        Ok(fed) => Ok(Ok(Some(fed))),
        Err(error) => Ok(Err(cannot_read(alloc, &error)?)),
    }
}

/// The words for standard input that cannot be read. If memory is the reason, the error is want of memory.
pub(crate) fn cannot_read(alloc: Global, error: &io::Error) -> Result<String, Memory> {
    if error.kind() == ErrorKind::OutOfMemory {
        return Err(Memory);
    }
    let why = reason(alloc, error)?;
    Ok(format!(in alloc; "cannot read standard input: {why}")?)
}

// Whether the line is `load NAME -`.
fn takes_all(alloc: Global, line: &str) -> bool {
    let names = Names {
        relations: &[],
        mappings: &[],
    };
    match read_command(alloc, &names, line) {
        Ok(Some(said)) => {
            let all = loads_all(&said.command);
            drop(said);
            all
        }
        Ok(None) => false,
        Err(refusal) => {
            drop(refusal);
            false
        }
    }
}

fn loads_all(command: &Command) -> bool {
    match command {
        Command::Change { change, .. } => reads_all(change),
        Command::Try { change, .. } => reads_all(change),
        _ => false,
    }
}

fn reads_all(change: &Change) -> bool {
    match change {
        Change::Load(load) => match &load.source {
            Source::File(path) => path.as_str() == "-",
            Source::Lines(_) => false,
        },
        _ => false,
    }
}
