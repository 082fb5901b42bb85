//! Marks by cell, spread over small maps.
ghost use Rattle.std.specs.Prelude.{◌≡◌, ℕ, Bool, true, refl, List, [], cond, Some, IfOk, OnOk};
ghost use Rattle.std.specs.Option.{option_map, option_copied};
ghost use Rattle.std.specs.Ordering.{on};
ghost use Rattle.set_versions.specs.Cells.{cell_cmp};
ghost use Rattle.set_versions.specs.Indexed.{cell_of, set_entry};
ghost use Rattle.set_versions.specs.Spreads.{joined, same_halves, halves_same, same_quarters, quarters_same, same_shelves, shelves_same, shelves_in, on_shelves, cells_on};

use crate::cells::Cell;
use crate::edits;
use crate::marks::Marks;
use base_tree::{Share, TreeMap};
use def_memory::Memory;
use std::alloc::{AllocError, Global};
use std::marker::Model;
use std::sync::Arc;

/// The marks of the cells of one spot, or of a few.
#[derive(Drop)]
pub struct Shelf {
    pub cells: TreeMap<Cell, Marks>,
}

impl Share for Shelf {
    fn share(&self) -> Result<Shelf, AllocError> {
        Ok(Shelf {
            cells: self.cells.share()?,
        })
    }
}

/// Marks by cell, on the shelf of the cell's spot.
pub trait Spread: Share {
    ghost use Rattle.set_versions.specs.declared.cells.Cell.{Cell};
    ghost use Rattle.set_versions.specs.declared.marks.Marks.{Marks};

    // The cells with their marks on the shelf of each spot.
    ghost shelves: { Self → ℕ → List (Cell × Marks) };

    // Whether two spots share one shelf.
    ghost same: { ℕ → ℕ → Bool };

    /// No marks at all.
    fn none() -> Self
        ensures none { (j : ℕ) → shelves result j ≡ [] };

    /// The shelf of the spot, if there is one.
    fn shelf(&self, spot: u32) -> Option<&Shelf>
        ensures shelf { cells_on (option_copied result) ≡ shelves self.now spot };

    /// Puts the marks at the cell on the shelf of the spot, or takes the cell out if the marks say that the tuple is nowhere.
    fn set(&mut self, alloc: Global, spot: u32, cell: Cell, marks: Marks) -> Result<(), Memory>
        ensures ok { OnOk result ((j : ℕ) → shelves self.new j ≡ cond (same j spot)
            (set_entry (on cell_of cell_cmp) (shelves self.old j) cell marks)
            (shelves self.old j)) };

    ghost same_itself: { (j : ℕ) → same j j ≡ true };
}

// One shelf for all spots.
impl Spread for Shelf {
    ghost shelves = { λ shelf _. shelf.cells };

    ghost same = { λ _ _. true };

    ghost same_itself = { λ _. refl };

    fn none() -> Shelf {
        Shelf {
            cells: TreeMap::new(),
        }
    }

    #[inline(always)]
    fn shelf(&self, _spot: u32) -> Option<&Shelf> {
        Some(self)
    }

    #[inline(always)]
    fn set(&mut self, alloc: Global, _spot: u32, cell: Cell, marks: Marks) -> Result<(), Memory> {
        edits::set(&mut self.cells, alloc, cell, marks)
    }
}

/// Marks by cell in two parts: for even spots and for odd ones, each by the half of the spot.
#[derive(Drop)]
pub struct Halves<T> {
    even: T,
    odd: T,
}

impl<T: Share> Share for Halves<T> {
    fn share(&self) -> Result<Halves<T>, AllocError> {
        Ok(Halves {
            even: self.even.share()?,
            odd: self.odd.share()?,
        })
    }
}

impl<T: Spread> Spread for Halves<T> {
    ghost shelves = { λ halves. joined (T.shelves halves.even) (T.shelves halves.odd) };

    ghost same = { same_halves T.same };

    ghost same_itself = { halves_same T.same T.same_itself };

    fn none() -> Halves<T> {
        Halves {
            even: T::none(),
            odd: T::none(),
        }
    }

    #[inline(always)]
    fn shelf(&self, spot: u32) -> Option<&Shelf> {
        if spot % 2 == 0 {
            self.even.shelf(spot / 2)
        } else {
            self.odd.shelf(spot / 2)
        }
    }

    #[inline(always)]
    fn set(&mut self, alloc: Global, spot: u32, cell: Cell, marks: Marks) -> Result<(), Memory> {
        if spot % 2 == 0 {
            self.even.set(alloc, spot / 2, cell, marks)
        } else {
            self.odd.set(alloc, spot / 2, cell, marks)
        }
    }
}

/// Marks by cell in four parts, copied on write: another handle costs nothing, and a change copies the parts only if another
/// handle shares them. Without marks it allocates nothing.
#[derive(Drop)]
pub struct Quarters<T> {
    room: Option<Arc<Room<T>>>,
}

// The parts that handles share.
#[derive(Drop)]
pub(crate) struct Room<T> {
    parts: Halves<Halves<T>>,
}

impl<T> Model for Quarters<T> {
    ghost use Rattle.std.specs.Prelude.{Option};
    ghost use Rattle.std.specs.Option.{option_map};
    ghost use Rattle.set_versions.specs.declared.spreads.Room.{Room};

    ghost Value = { Option (Room T) };

    ghost view = { λ q. option_map (λ a. a.value) q.room };
}

impl<T: Share> Clone for Room<T> {
    ghost is_clone = { λ room copy. copy ≡ room };

    fn clone(&self) -> Result<Room<T>, AllocError> {
        Ok(Room {
            parts: self.parts.share()?,
        })
    }
}

impl<T: Drop> Share for Quarters<T> {
    fn share(&self) -> Result<Quarters<T>, AllocError> {
        match &self.room {
            Some(room) => {
                let room = Arc::try_clone(room)?;
                Ok(Quarters { room: Some(room) })
            }
            None => Ok(Quarters { room: None }),
        }
    }
}

impl<T: Spread> Spread for Quarters<T> {
    ghost shelves = { λ quarters. shelves_in T.shelves quarters };

    ghost same = { same_quarters T.same };

    ghost same_itself = { quarters_same T.same T.same_itself };

    fn none() -> Quarters<T> {
        Quarters { room: None }
    }

    #[inline(always)]
    fn shelf(&self, spot: u32) -> Option<&Shelf> {
        match &self.room {
            Some(room) => room.parts.shelf(spot),
            None => None,
        }
    }

    #[inline(always)]
    fn set(&mut self, alloc: Global, spot: u32, cell: Cell, marks: Marks) -> Result<(), Memory> {
        let Some(shared) = &mut self.room else {
            let mut parts: Halves<Halves<T>> = Spread::none();
            parts.set(alloc, spot, cell, marks)?;
            return self.hold(alloc, parts);
        };
        let Ok(room) = Arc::make_mut(shared) else {
            return Err(Memory);
        };
        room.parts.set(alloc, spot, cell, marks)
    }
}

impl<T: Spread> Quarters<T> {
    // Holds these parts from now on.
    fn hold(&mut self, alloc: Global, parts: Halves<Halves<T>>) -> Result<(), Memory>
        ensures ok { OnOk result (self.new ≡ Some (record { parts = parts })) }
    {
        match Arc::new(alloc, Room { parts }) {
            Ok(room) => {
                self.room = Some(room);
                Ok(())
            }
            Err(_) => Err(Memory),
        }
    }
}

/// Sixteen shelves.
#[derive(Drop)]
pub struct Shelves {
    parts: Quarters<Quarters<Shelf>>,
}

impl Share for Shelves {
    fn share(&self) -> Result<Shelves, AllocError> {
        Ok(Shelves {
            parts: self.parts.share()?,
        })
    }
}

impl Spread for Shelves {
    ghost shelves = { on_shelves };

    ghost same = { same_shelves };

    ghost same_itself = { shelves_same };

    fn none() -> Shelves {
        Shelves {
            parts: Spread::none(),
        }
    }

    #[inline(always)]
    fn shelf(&self, spot: u32) -> Option<&Shelf> {
        self.parts.shelf(spot)
    }

    #[inline(always)]
    fn set(&mut self, alloc: Global, spot: u32, cell: Cell, marks: Marks) -> Result<(), Memory> {
        self.parts.set(alloc, spot, cell, marks)
    }
}

/// 16 times 16 shelves.
pub type Spots = Quarters<Quarters<Shelves>>;
