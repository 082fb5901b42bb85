//! The relations whose tuples were changed by lines.

use base_types::{Memory, Tuple, TupleList, Write};
use std::alloc::Global;
use std::collections::BTreeSet;
use ws_run::{Step, Touched, WANT};
use ws_state::{Replayed, Standing};

/// What lines did: their number, what they wrote, and the relations whose tuples an undo or a redo changed. Each write changed
/// something.
#[derive(Drop)]
pub(crate) struct Changed {
    pub lines: usize,
    writes: Vec<Write>,
    tables: BTreeSet<u16>,
}

impl Changed {
    /// No line, so no change.
    pub fn new(alloc: Global) -> Changed {
        Changed {
            lines: 0,
            writes: Vec::new(alloc),
            tables: BTreeSet::new(alloc),
        }
    }

    /// Adds what these updates did; they have just come to stand.
    pub fn add_stood(&mut self, standings: &[Standing]) -> Result<(), Memory> {
        for standing in standings {
            for step in standing.steps.as_slice() {
                self.add_step(step)?;
            }
        }
        Ok(())
    }

    fn add_step(&mut self, step: &Step) -> Result<(), Memory> {
        self.add_deleted(step.note.deleted.as_slice())?;
        self.add_put(step.note.puts.as_slice())
    }

    fn add_deleted(&mut self, tuples: &[Tuple]) -> Result<(), Memory> {
        for tuple in tuples {
            if is_seen(tuple) {
                self.writes.push(Write::Delete(tuple.share()?))?;
            }
        }
        Ok(())
    }

    fn add_put(&mut self, tuples: &[Tuple]) -> Result<(), Memory> {
        for tuple in tuples {
            if is_seen(tuple) {
                self.writes.push(Write::Insert(tuple.share()?))?;
            }
        }
        Ok(())
    }

    /// Adds what an undo or a redo did.
    pub fn add_replayed(&mut self, replayed: &Replayed) -> Result<(), Memory> {
        add_tables(&mut self.tables, &replayed.came)?;
        add_tables(&mut self.tables, &replayed.went)
    }

    /// The numbers of the relations whose tuples have changed, in rising order.
    pub fn tables(&mut self, alloc: Global) -> Result<Vec<u32>, Memory> {
        self.add_written(alloc)?;
        let mut numbers = Vec::new(alloc);
        for table in &self.tables {
            numbers.push(u32::from(*table))?;
        }
        Ok(numbers)
    }

    // Adds the relations that the writes changed.
    fn add_written(&mut self, alloc: Global) -> Result<(), Memory> {
        if only_come_or_go(alloc, self.writes.as_slice())? {
            return add_each(&mut self.tables, self.writes.as_slice());
        }
        add_touched(alloc, &mut self.tables, self.writes.as_slice())
    }
}

// Whether each relation only gained tuples or only lost tuples. If so, each write changed its relation for good.
fn only_come_or_go(alloc: Global, writes: &[Write]) -> Result<bool, Memory> {
    let mut came = BTreeSet::new(alloc);
    let mut went = BTreeSet::new(alloc);
    for write in writes {
        match write {
            Write::Insert(tuple) => add(&mut came, tuple.relation)?,
            Write::Delete(tuple) => add(&mut went, tuple.relation)?,
        }
    }
    for relation in &came {
        if went.contains(relation) {
            return Ok(false);
        }
    }
    Ok(true)
}

fn add_each(tables: &mut BTreeSet<u16>, writes: &[Write]) -> Result<(), Memory> {
    for write in writes {
        match write {
            Write::Insert(tuple) => add(tables, tuple.relation)?,
            Write::Delete(tuple) => add(tables, tuple.relation)?,
        }
    }
    Ok(())
}

// Adds the relations of the tuples whose presence differs before and after the writes.
fn add_touched(alloc: Global, tables: &mut BTreeSet<u16>, writes: &[Write]) -> Result<(), Memory> {
    let mut touched = Touched::new(alloc);
    touched.made(writes)?;
    for (tuple, touch) in &touched.tuples {
        if touch.was != touch.is {
            add(tables, tuple.relation)?;
        }
    }
    Ok(())
}

// Whether people see the tuple's relation.
fn is_seen(tuple: &Tuple) -> bool {
    tuple.relation < WANT
}

fn add_tables(tables: &mut BTreeSet<u16>, tuples: &TupleList) -> Result<(), Memory> {
    for tuple in tuples.as_slice() {
        add(tables, tuple.relation)?;
    }
    Ok(())
}

fn add(tables: &mut BTreeSet<u16>, table: u16) -> Result<(), Memory> {
    match tables.insert(table) {
        Ok(_) => Ok(()),
        Err(_) => Err(Memory),
    }
}
