//! The names of the nulls that stand.
ghost use Rattle.std.specs.Prelude.{◌≡◌, ◌≤◌, ◌∷◌, ◌++◌, [], false, find, length, map, take, OnOk, OnErr, IfOk, IfSome, IfNone, IsTrue};
ghost use Rattle.std.specs.Option.{option_map, option_copied};
ghost use Rattle.def_steps.specs.Rewriting.{same_null};
ghost use Rattle.def_workspace.specs.Names.{Names as NamesMeant, datum_named, fact_named, name_of as name_of_null, null_called as null_with_name};
ghost use Rattle.base_types.specs.Contents.{facts_of};
ghost use Rattle.base_types.specs.Meanings.{datum_of, fact_of, null_of};
ghost use Rattle.ws_names.specs.Firsts.{IsIndexOf};
ghost use Rattle.ws_names.specs.Meanings.{IsPopped, name_in, null_in, pair_of};

use crate::firsts::{Firsts, forget, note};
use base_types::{List, Memory, Null, TryCopy, Tuple, TupleList, Value, ValueList};
use std::alloc::Global;
use std::collections::BTreeMap;
use std::marker::Model;

/// Each null with its name, found by either. Nulls get names in the order in which they are drawn; the last names can be taken
/// back. Contracts see the nulls with their names in that order.
#[derive(Drop)]
pub struct Names {
    drawn: List<Pair>,
    names: Firsts,
    nulls: Firsts,
}

/// A null and its name.
#[derive(Clone, Copy)]
pub struct Pair {
    pub null: Null,
    pub name: Null,
}

impl Model for Names {
    ghost use Rattle.std.specs.Prelude.{List, map};
    ghost use Rattle.def_chase.specs.Values.{NullName};
    ghost use Rattle.ws_names.specs.Firsts.{IsIndexOf};
    ghost use Rattle.ws_names.specs.Meanings.{name_in, null_in, pair_of};

    ghost Value = { List (NullName × NullName) };

    ghost view = { λ n. map pair_of n.drawn.items };

    ghost invariant = { λ n. (IsIndexOf null_in n.drawn.items n.names) ×
        (IsIndexOf name_in n.drawn.items n.nulls) };
}

impl Names {
    /// An empty table: no null has a name.
    pub fn new(alloc: Global) -> Names
        ensures empty { result ≡ [] }
    {
        Names {
            drawn: List::new(alloc),
            names: BTreeMap::new(alloc),
            nulls: BTreeMap::new(alloc),
        }
    }

    /// The number of nulls that have a name.
    pub fn len(&self) -> usize
        ensures length { result ≡ length self.now }
    {
        self.drawn.len()
    }

    /// The nulls with their names, in the order in which they were drawn.
    pub fn pairs(&self) -> &[Pair]
        ensures pairs { map pair_of result.now ≡ self.now }
    {
        self.drawn.as_slice()
    }

    /// Gives the null a name. A null that has several names goes by the first, and a name of several nulls is that of the first.
    #[tactic(auto, using(crate::proofs::Kept::names_added, crate::proofs::Kept::nulls_added, crate::proofs::Kept::names_undone))]
    pub fn give(&mut self, null: Null, name: Null) -> Result<(), Memory>
        ensures ok { OnOk result (self.new ≡ self.old ++ (null_of null, null_of name) ∷ []) }
        ensures err { OnErr result (self.new ≡ self.old) }
    {
        let place = self.drawn.len();
        self.drawn.reserve(1)?;
        note(&mut self.names, null, place)?;
        if note(&mut self.nulls, name, place).is_err() {
            forget(&mut self.names, null, place);
            return Err(Memory);
        }
        self.drawn.push(Pair { null, name })?;
        Ok(())
    }

    /// Takes back all names but the first `count`.
    #[tactic(auto, using(crate::proofs::Kept::kept_pairs))]
    pub fn keep(&mut self, count: usize)
        ensures kept { self.new ≡ take count self.old }
    {
        keep_first(&mut self.drawn, &mut self.names, &mut self.nulls, count);
    }

    /// The name of a null, or the null itself if it has no name.
    pub fn name_of(&self, null: Null) -> Null
        ensures name { null_of result ≡ name_of_null self.now (null_of null) }
    {
        match self.of_null(null) {
            Some(pair) => pair.name,
            None => null,
        }
    }

    /// The null with this name; None if no null has it.
    pub fn null_called(&self, name: Null) -> Option<Null>
        ensures null { option_map null_of result ≡ null_with_name self.now (null_of name) }
    {
        match self.of_name(name) {
            Some(pair) => Some(pair.null),
            None => None,
        }
    }

    // The first pair of this null.
    fn of_null(&self, null: Null) -> Option<&Pair>
        ensures found { option_map pair_of (option_copied result) ≡
            find (λ p. same_null p.0 (null_of null)) self.now }
    {
        match self.names.get(&null) {
            Some(place) => self.drawn.get(*place),
            None => None,
        }
    }

    // The first pair of this name.
    fn of_name(&self, name: Null) -> Option<&Pair>
        ensures found { option_map pair_of (option_copied result) ≡
            find (λ p. same_null p.1 (null_of name)) self.now }
    {
        match self.nulls.get(&name) {
            Some(place) => self.drawn.get(*place),
            None => None,
        }
    }

    /// The value by names.
    pub fn value(&self, alloc: Global, value: &Value) -> Result<Value, Memory>
        ensures named { IfOk result
            (λ named. datum_of named ≡ datum_named self.now (datum_of value.now)) }
    {
        match value {
            Value::Null(null) => Ok(Value::Null(self.name_of(*null))),
            Value::Int(_) => value.copy(alloc),
            Value::Word(_) => value.copy(alloc),
        }
    }

    /// The tuple by names.
    #[tactic(auto, using(crate::proofs::Kept::shared_named))]
    pub fn tuple(&self, alloc: Global, tuple: &Tuple) -> Result<Tuple, Memory>
        ensures named { IfOk result
            (λ named. fact_of named ≡ fact_named self.now (fact_of tuple.now)) }
    {
        if has_no_null(tuple.values.as_slice()) {
            let same = tuple.share()?;
            return Ok(same);
        }
        self.renamed(alloc, tuple)
    }

    // The tuple by names, with values of its own.
    fn renamed(&self, alloc: Global, tuple: &Tuple) -> Result<Tuple, Memory>
        ensures named { IfOk result
            (λ named. fact_of named ≡ fact_named self.now (fact_of tuple.now)) }
    {
        let mut values = ValueList::new(alloc);
        values.reserve(tuple.values.len())?;
        for value in tuple.values.as_slice() {
            values.push(self.value(alloc, value)?)?;
        }
        Tuple::new(alloc, tuple.relation, values)
    }

    /// The tuples by names.
    pub fn tuples(&self, alloc: Global, tuples: &[Tuple]) -> Result<TupleList, Memory>
        ensures named { IfOk result
            (λ named. facts_of named ≡ map (fact_named self.now) (map fact_of tuples.now)) }
    {
        let mut named = TupleList::new(alloc);
        named.reserve(tuples.len())?;
        for tuple in tuples {
            named.push(self.tuple(alloc, tuple)?)?;
        }
        Ok(named)
    }
}

// Takes back all pairs but the first `count`, the last of them first.
#[tactic(auto, using(crate::proofs::Kept::kept_on, crate::proofs::Kept::fewer_left, crate::proofs::Kept::kept_all, crate::proofs::Kept::names_left, crate::proofs::Kept::nulls_left))]
fn keep_first(drawn: &mut List<Pair>, names: &mut Firsts, nulls: &mut Firsts, count: usize)
    requires names { IsIndexOf null_in drawn.old.items names.old }
    requires nulls { IsIndexOf name_in drawn.old.items nulls.old }
    ensures names { IsIndexOf null_in drawn.new.items names.new }
    ensures nulls { IsIndexOf name_in drawn.new.items nulls.new }
    ensures kept { drawn.new.items ≡ take count drawn.old.items }
{
    'pairs: while let Some(pair) = pop_after(drawn, count) {
        let place = drawn.len();
        forget(names, pair.null, place);
        forget(nulls, pair.name, place);
    }
}

// Takes the last pair from the list if there are more than `count`.
fn pop_after(drawn: &mut List<Pair>, count: usize) -> Option<Pair>
    ensures some { IfSome result (IsPopped count drawn.old.items drawn.new.items) }
    ensures none { IfNone result (length drawn.old.items ≤ count) }
    ensures same { IfNone result (drawn.new.items ≡ drawn.old.items) }
{
    if drawn.len() <= count {
        return None;
    }
    match drawn.pop() {
        Some(pair) => Some(pair),
        None => None,
    }
}

// Whether no value is a null.
fn has_no_null(values: &[Value]) -> bool
    ensures same { IsTrue result → ((ns : NamesMeant) →
        map (datum_named ns) (map datum_of values.now) ≡ map datum_of values.now) }
{
    for value in values {
        if is_null(value) {
            return false;
        }
    }
    true
}

// Whether the value is a null.
fn is_null(value: &Value) -> bool
    ensures same { result ≡ false → ((ns : NamesMeant) →
        datum_named ns (datum_of value.now) ≡ datum_of value.now) }
{
    match value {
        Value::Null(_) => true,
        Value::Int(_) => false,
        Value::Word(_) => false,
    }
}
