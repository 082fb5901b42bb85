//! Footprints: a summary of what an attempt has written and asked, which shows quickly that a write below it meets none of its
//! reads.
ghost use Rattle.std.specs.Prelude.{◌≡◌, ◌<◌, ◌||◌, false, true, [], map};
ghost use Rattle.std.specs.List.{list_all};
ghost use Rattle.base_types.specs.Meanings.{change_of, datum_of, fact_of, heading_of};
ghost use Rattle.def_chase.specs.Specific.{is_constant as is_constant_def};
ghost use Rattle.chase_query.specs.Meanings.{read_of, reads_in, reads_of, reply_of};
ghost use Rattle.core_conflict.specs.Concerns.{is_nothing as is_nothing_def};
ghost use Rattle.core_conflict.specs.Footprints.{Covers, CoversMore, ReadsMore, has_read, has_write_in};
ghost use Rattle.core_conflict.specs.Meetings.{IsJoinless, IsNoneMet, IsOutside};
ghost use Rattle.core_conflict.specs.Signatures.{IsWithin, has_spot, has_tuple, has_values, spot_asked};

use crate::concerns::tuple_of;
use crate::impacts::{Impact, Reach};
use crate::joins::may_enact_any;
use crate::signatures::{Signature, home, spot};
use base_types::{Direction, Tuple, Value, Write};
use chase_query::{Logged, LoggedRead, Query, Reply};

/// A summary of an attempt's writes and reads: the spots of the values that it wrote (`own`) and asked for (`asked`), and
/// whether it found a violation. `exposed`: any write at all may meet one of its reads.
#[derive(Clone, Copy, Debug)]
pub struct Footprint {
    pub(crate) exposed: bool,
    pub(crate) found: bool,
    pub(crate) own: Signature,
    pub(crate) asked: Signature,
}

impl Footprint {
    /// The footprint of an attempt at its start.
    pub fn empty() -> Footprint
        ensures covers { Covers result [] [] }
    {
        Footprint {
            exposed: false,
            found: false,
            own: Signature::empty(),
            asked: Signature::empty(),
        }
    }

    /// The footprint of the attempt after these further own writes and reads.
    pub fn after(self, writes: &[Write], reads: &[Logged]) -> Footprint
        ensures covers { CoversMore self (map change_of writes.now) (reads_in reads.now)
            result }
    {
        let asked = self.asking(reads);
        Footprint {
            exposed: either(asked.exposed, may_enact_any(writes)),
            found: asked.found,
            own: with_writes(self.own, writes),
            asked: asked.asked,
        }
    }

    // The footprint with these further reads.
    fn asking(self, reads: &[Logged]) -> Footprint
        ensures more { ReadsMore self result }
        ensures has { list_all (has_read result) (reads_in reads.now) ≡ true }
    {
        let mut more = self;
        for entry in reads {
            more = more.asking_by(entry);
        }
        more
    }

    // The footprint with the further reads of one entry. A passage adds nothing, since its reads found no violation.
    fn asking_by(self, entry: &Logged) -> Footprint
        ensures more { ReadsMore self result }
        ensures has { list_all (has_read result) (reads_of entry.now) ≡ true }
    {
        match entry {
            Logged::Asked(read) => self.asking_one(read),
            Logged::Passed(_) => self,
        }
    }

    // The footprint with one further read.
    fn asking_one(self, read: &LoggedRead) -> Footprint
        ensures more { ReadsMore self result }
        ensures has { has_read result (read_of read.now) ≡ true }
    {
        match &read.query {
            Query::Present(tuple) => self.asking_at(asked(tuple)),
            Query::Violation(_) => self.finding(&read.answer),
            Query::Specific(tuple) => self.asking_at(asked(tuple)),
            Query::Occurs(_) => self.exposed(),
        }
    }

    // The footprint with this spot of a tuple that was asked for.
    fn asking_at(self, spot: u32) -> Footprint
        requires { spot < 16384 }
        ensures more { ReadsMore self result }
        ensures has { has_spot result.asked spot ≡ true }
    {
        Footprint {
            exposed: self.exposed,
            found: self.found,
            own: self.own,
            asked: self.asked.with(spot),
        }
    }

    // The footprint with this answer to a search for a violation.
    fn finding(self, answer: &Reply) -> Footprint
        ensures more { ReadsMore self result }
        ensures has { (is_nothing_def (reply_of answer.now) || result.found) ≡ true }
    {
        let found = !is_nothing(answer);
        Footprint {
            exposed: self.exposed,
            found: self.found || found,
            own: self.own,
            asked: self.asked,
        }
    }

    // The footprint of an attempt of which any write may meet a read.
    fn exposed(self) -> Footprint
        ensures more { ReadsMore self result }
        ensures exposed { result.exposed ≡ true }
    {
        Footprint {
            exposed: true,
            found: self.found,
            own: self.own,
            asked: self.asked,
        }
    }

    /// Whether a write of that impact may meet a read of the attempt, which goes in this direction. If `false`, none does.
    #[inline(always)]
    pub fn may_be_met(&self, direction: Direction, impact: &Impact) -> bool
        ensures unmet { result ≡ false → IsNoneMet (heading_of direction) self.now impact.now }
    {
        if self.asked.shares(impact.asked) || self.exposed {
            return true;
        }
        self.may_join(direction, impact)
    }

    // Whether own writes may join with one of the writes; backward also whether the attempt found a violation.
    #[inline(always)]
    fn may_join(&self, direction: Direction, impact: &Impact) -> bool
        ensures joinless { result ≡ false → IsJoinless (heading_of direction) self.now impact.now }
    {
        match direction {
            Direction::Forward => self.is_in(&impact.forward),
            Direction::Backward => self.found || self.is_in(&impact.backward),
        }
    }

    // Whether an own write may be in that reach.
    #[inline(always)]
    fn is_in(&self, reach: &Reach) -> bool
        ensures outside { result ≡ false → IsOutside self.now.own reach.now }
    {
        self.own.shares(reach.own) || reach.every
    }
}

// The signature with the values of the writes.
fn with_writes(signature: Signature, writes: &[Write]) -> Signature
    ensures more { IsWithin signature result }
    ensures has { list_all (has_write_in result) (map change_of writes.now) ≡ true }
{
    let mut all = signature;
    for write in writes {
        all = with_values(all, tuple_of(write));
    }
    all
}

/// The signature with the values of the tuple, column by column.
pub(crate) fn with_values(signature: Signature, tuple: &Tuple) -> Signature
    ensures more { IsWithin signature result }
    ensures has { has_tuple result (fact_of tuple.now) ≡ true }
{
    with_each(signature, tuple.relation, tuple.values.as_slice())
}

// The signature with the values of a tuple of the relation, column by column.
fn with_each(signature: Signature, relation: u16, values: &[Value]) -> Signature
    ensures more { IsWithin signature result }
    ensures has { has_values result relation 0 (map datum_of values.now) ≡ true }
{
    let mut all = signature;
    let mut column = 0;
    for value in values {
        all = all.with(spot(relation, column, value));
        column += 1;
    }
    all
}

// A spot that each tuple has that is equal to the one asked for or more specific: the spot of its first constant, or of its
// relation if it has no constant.
fn asked(tuple: &Tuple) -> u32
    ensures spot { result ≡ spot_asked tuple.now.relation 0 (fact_of tuple.now).values }
    ensures below { result < 16384 }
{
    asked_in(tuple.relation, tuple.values.as_slice())
}

// A spot that each tuple has that is equal to the tuple of this relation with these values, or more specific.
fn asked_in(relation: u16, values: &[Value]) -> u32
    ensures spot { result ≡ spot_asked relation 0 (map datum_of values.now) }
    ensures below { result < 16384 }
{
    let mut column = 0;
    for value in values {
        if is_constant(value) {
            return spot(relation, column, value);
        }
        column += 1;
    }
    home(relation)
}

// Whether the value is no null.
fn is_constant(value: &Value) -> bool
    ensures { result ≡ is_constant_def (datum_of value.now) }
{
    match value {
        Value::Int(_) => true,
        Value::Word(_) => true,
        Value::Null(_) => false,
    }
}

// Whether the answer is that there is no violation.
fn is_nothing(answer: &Reply) -> bool
    ensures { result ≡ is_nothing_def (reply_of answer.now) }
{
    matches!(answer, Reply::Nothing)
}

// Whether one of the two holds.
fn either(one: bool, other: bool) -> bool
    ensures { result ≡ (one || other) }
{
    one || other
}
