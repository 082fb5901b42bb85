//! The index of a table: the marks of each tuple, held once more for each column after the first, by cell.
ghost use Rattle.std.specs.Prelude.{◌≡◌, length, IfOk, OnOk};
ghost use Rattle.base_types.specs.Meanings.{fact_of};
ghost use Rattle.set_versions.specs.Indexed.{CellHas, CellsHave, IndexHas};
ghost use Rattle.set_versions.specs.Spreads.{on_spots};

use crate::cells::Cell;
use crate::handles::Handle;
use crate::marks::Marks;
use crate::spreads::{Spots, Spread};
use base_tree::Share;
use def_memory::Memory;
use std::alloc::{AllocError, Global};

/// Another handle to the index, if there is one.
pub fn shared(index: &Option<Spots>) -> Result<Option<Spots>, AllocError>
    ensures same { IfOk result (λ copy. copy ≡ index.now) }
{
    match index {
        Some(spots) => Ok(Some(spots.share()?)),
        None => Ok(None),
    }
}

/// The index, if there is one, with the marks at each cell of the tuple after the first. If it is refused, the index is dropped.
pub fn indexed(
    index: Option<Spots>,
    alloc: Global,
    tuple: &Handle,
    marks: &Marks,
) -> Result<Option<Spots>, Memory>
    ensures ok { IfOk result (λ new. IndexHas (fact_of tuple.now) marks.now index new) }
{
    match index {
        Some(mut spots) => {
            set_cells(&mut spots, alloc, tuple, marks)?;
            Ok(Some(spots))
        }
        None => Ok(None),
    }
}

// Puts the marks at each cell of the tuple after the first.
fn set_cells(cells: &mut Spots, alloc: Global, tuple: &Handle, marks: &Marks) -> Result<(), Memory>
    ensures ok { OnOk result
        (CellsHave (fact_of tuple.now) (length (fact_of tuple.now).values) marks.now
        (on_spots cells.old) (on_spots cells.new)) }
{
    for column in 0..tuple.get().values.len() {
        set_cell(cells, alloc, tuple, column, marks)?;
    }
    Ok(())
}

// Puts the marks at the cell of the tuple in this column, if it is not the first.
fn set_cell(
    cells: &mut Spots,
    alloc: Global,
    tuple: &Handle,
    column: usize,
    marks: &Marks,
) -> Result<(), Memory>
    ensures ok { OnOk result (CellHas (fact_of tuple.now) column marks.now
        (on_spots cells.old) (on_spots cells.new)) }
{
    if column == 0 {
        return Ok(());
    }
    let cell = Cell {
        column,
        tuple: tuple.share()?,
    };
    let spot = cell.spot();
    cells.set(alloc, spot, cell, marks.share()?)?;
    Ok(())
}
