//! Cursors over a set of which some tuples are hidden.
ghost use Rattle.std.specs.Prelude.{◌≡◌, List, not, find};
ghost use Rattle.std.specs.Option.{option_map, option_copied};
ghost use Rattle.def_chase.specs.Repository.{has, IsRepository};
ghost use Rattle.def_chase.specs.Values.{Fact};
ghost use Rattle.base_types.specs.Meanings.{fact_of};
ghost use Rattle.set_facts.specs.Courses.{comes_after, ahead};
ghost use Rattle.set_facts.specs.Overlaid.{lesser};

use base_types::{Facts, OuterName, Tuple, Value};

/// Something that hides tuples of a set. Its meaning, `hidden`, is the list of the tuples that it hides.
pub trait Hides {
    ghost hidden: { Self → List Fact };

    /// Whether the tuple is hidden.
    fn hides(&self, tuple: &Tuple) -> bool
        ensures answer { result ≡ has (hidden self.now) (fact_of tuple.now) };
}

/// The tuples that a cursor goes over: all, the tuples of a relation, the tuples of a relation with a value in a column, or the
/// tuples that hold a null of a name.
#[derive(Drop)]
pub enum Course<'v> {
    All,
    Relation,
    Column(u16, u16, &'v Value),
    Holding(OuterName),
}

/// The first tuple from the cursor on that is not hidden.
pub fn remaining<'a, F: Facts, H: Hides>(
    facts: &'a F,
    hidden: &H,
    course: &Course<'_>,
    from: Option<&'a Tuple>,
) -> Option<&'a Tuple>
    ensures found { option_map fact_of (option_copied result) ≡
        find (λ u. not (has (H.hidden hidden.now) u))
        (ahead (comes_after course.now) (F.tuples facts.now)
        (option_map fact_of (option_copied from.entry))) }
{
    let mut cursor = from;
    while let Some(tuple) = cursor {
        if !hidden.hides(tuple) {
            return Some(tuple);
        }
        cursor = next(facts, course, tuple);
    }
    None
}

// The next tuple on the course.
fn next<'a, F: Facts>(facts: &'a F, course: &Course<'_>, tuple: &Tuple) -> Option<&'a Tuple>
    ensures found { option_map fact_of (option_copied result) ≡
        find (comes_after course.now (fact_of tuple.now)) (F.tuples facts.now) }
    ensures in_order { IsRepository (F.tuples facts.now) }
{
    match course {
        Course::All => facts.beyond(Some(tuple)),
        Course::Relation => facts.after(tuple),
        Course::Column(relation, column, value) => {
            facts.scan(*relation, *column, *value, Some(tuple))
        }
        Course::Holding(name) => facts.holding(*name, Some(tuple)),
    }
}

/// The lesser of two tuples, or the only one that is there.
pub fn least<'a>(one: Option<&'a Tuple>, other: Option<&'a Tuple>) -> Option<&'a Tuple>
    ensures least { option_map fact_of (option_copied result) ≡
        lesser (option_map fact_of (option_copied one.entry))
        (option_map fact_of (option_copied other.entry)) }
{
    let Some(tuple) = one else {
        return other;
    };
    let Some(against) = other else {
        return one;
    };
    if tuple.cmp(against).is_gt() {
        Some(against)
    } else {
        Some(tuple)
    }
}
