//! The laws of the definitions. Each is the contract of a function that does nothing, so that it is proved and can be cited.

ghost use Rattle.def_chase.specs.Caused.{CausedIsAll, CausedValues};
ghost use Rattle.def_chase.specs.Examples.{WorkedValues};
ghost use Rattle.def_chase.specs.Laws.{CoarseLaw, FirstViolation, ImageDetermines, MembersDetermine, MoreSpecificLaws, OrdersAreTotal, OuterForms, ShiftsCommute, UnifierEnds, UnifierUnites, ViolationDecides, WritesApply};

/// The orders of nulls, values and tuples are total, and only equals tie. So sorted lists stand for sets, and "the least" is
/// unique.
pub fn orders_are_total()
    ensures { OrdersAreTotal }
{}

/// After writes a tuple is there exactly if its last write is an insertion, or if it was there and none wrote it. Writes keep a
/// repository in order.
pub fn writes_apply()
    ensures { WritesApply }
{}

/// A repository is determined by its members.
pub fn members_determine()
    ensures { MembersDetermine }
{}

/// The image of atoms determines the binding on their variables, so a violation may be named by its image.
pub fn image_determines()
    ensures { ImageDetermines }
{}

/// The computed test decides which lists of tuples are images of violations.
pub fn violation_is_decided()
    ensures { ViolationDecides }
{}

/// The first violation is a violation with the least image; if none is found, the mapping holds.
pub fn first_violation_is_least()
    ensures { FirstViolation }
{}

/// The computed test decides which tuples are more specific; this relation is reflexive and transitive.
pub fn more_specific_is_decided()
    ensures { MoreSpecificLaws }
{}

/// The unifier of a tuple and a more specific one makes the two equal, and moves only nulls of the first.
pub fn unifier_unites()
    ensures { UnifierUnites }
{}

/// The unifier takes each value to the unique end of its walk: the walk reaches it, comes back to it, and no value that follows
/// it is less.
pub fn unifier_ends_walks()
    ensures { UnifierEnds }
{}

/// The coarse law: the value of a query depends only on tuples of the relations that it mentions, whatever the own writes and the
/// scope.
pub fn mentions_decide()
    ensures { CoarseLaw }
{}

/// A shift of attempt numbers commutes with every query, if no constant of a mapping is a null; outer forms do not show it.
pub fn shifts_commute()
    ensures { ShiftsCommute }
{}

/// If each update has only one attempt among the nulls, outer forms keep the order of tuples, and different tuples have different
/// ones.
pub fn outer_forms_keep_order()
    ensures { OuterForms }
{}

/// If a mapping held before, and the own writes keep the repository (forward: a substitution carries it through them; backward:
/// they only delete), the first violation that they caused is the first of all.
pub fn caused_is_all()
    ensures { CausedIsAll }
{}

/// So each query that looks only at mappings in force has the same value in the full and in the caused scope.
pub fn caused_values_are_all()
    ensures { CausedValues }
{}

/// Small values of the definitions, computed: the orders, writes, first violations, the unifier's walks and cycles, queries and
/// cursors.
pub fn worked_values()
    ensures { WorkedValues }
{}
