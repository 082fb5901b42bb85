//! Searches among the marked tuples by a null that they hold, and the bound that spares most of them.
ghost use Rattle.std.specs.Prelude.{◌≡◌, ◌≤◌, ◌&&◌};
ghost use Rattle.std.specs.Option.{option_map, option_copied};
ghost use Rattle.def_chase.specs.Queries.{holds_null as holds_null_def};
ghost use Rattle.base_types.specs.Meanings.{datum_of, fact_of};
ghost use Rattle.set_versions.specs.Drawn.{NoneDrawnAbove, drawer};
ghost use Rattle.set_versions.specs.Marked.{stands};
ghost use Rattle.set_versions.specs.Zones.{place_beyond};
ghost use Rattle.set_versions.specs.ZoneLaws.{beyond_before, beyond_past};

use crate::handles::Handle;
use crate::marks::Marks;
use crate::searches::place_after;
use base_tree::Search;
use base_types::{OuterName, Tuple, Value};
use std::cmp::Ordering;

/// A search for tuples that come after `past`, if that is given, that update `number` sees, and that hold a null of the name.
#[derive(Drop)]
pub struct WithNull<'c> {
    pub number: u32,
    pub name: OuterName,
    pub past: Option<&'c Tuple>,
}

impl<'c> Search<Handle, Marks> for WithNull<'c> {
    ghost place = { λ s k. place_beyond (option_map fact_of (option_copied s.past)) (fact_of k) };

    ghost passes = { λ s e. stands s.number e.1 && holds_null_def s.name.update s.name.place (fact_of e.0) };

    ghost stays_past = { λ s x y. beyond_past (option_map fact_of (option_copied s.past)) (fact_of x) (fact_of y) };

    ghost stays_before = { λ s x y. beyond_before (option_map fact_of (option_copied s.past)) (fact_of x) (fact_of y) };

    fn place(&self, key: &Handle) -> Ordering {
        place_after(self.past, key.get())
    }

    fn passes(&self, entry: &(Handle, Marks)) -> bool {
        entry.1.stands(self.number) && entry.0.get().holds_null(self.name)
    }
}

/// The bound, raised to the highest update that drew a null of the tuple, if that is higher.
pub fn raised(bound: u32, tuple: &Tuple) -> u32
    ensures above { NoneDrawnAbove result (fact_of tuple.now) }
    ensures least { bound ≤ result }
{
    let mut newest = bound;
    for value in tuple.values.as_slice() {
        newest = newest.max(drawn_by(value));
    }
    newest
}

// The update that drew the null; 0 if the value is no null.
fn drawn_by(value: &Value) -> u32
    ensures { result ≡ drawer (datum_of value.now) }
{
    match value {
        Value::Null(null) => null.update,
        Value::Int(_) => 0,
        Value::Word(_) => 0,
    }
}
