//! The workspace's tuples in the form of a dump: nulls of the base are named by their places there, others by the updates of the
//! dump that drew them.

use crate::hidden::Hidden;
use base_types::{
    Choice, ChoiceList, Memory, Null, Operation, TryCopy, Tuple, TupleList, Value, ValueList,
};
use std::alloc::Global;
use std::collections::BTreeMap;

/// The names that tuples within have in a dump.
#[derive(Drop)]
pub(crate) struct Renaming {
    pub alloc: Global,
    /// The number of the last op before the dump's first update.
    pub first: u32,
    /// The place of each null of the base.
    pub places: BTreeMap<Null, u32>,
    pub hidden: Hidden,
}

impl Renaming {
    /// The null in the dump.
    pub fn null(&self, null: Null) -> Null {
        if self.first < null.update {
            return Null {
                update: null.update.saturating_sub(self.first),
                attempt: 0,
                place: null.place,
            };
        }
        match self.places.get(&null) {
            Some(place) => Null {
                update: 0,
                attempt: 0,
                place: *place,
            },
            None => null,
        }
    }

    /// The value in the dump.
    pub fn value(&self, value: &Value) -> Result<Value, Memory> {
        match value {
            Value::Null(null) => Ok(Value::Null(self.null(*null))),
            _ => value.copy(self.alloc),
        }
    }

    /// The tuple in the dump. If it is a repair, it is one of the mapping `repaired`.
    pub fn tuple(&self, tuple: &Tuple, repaired: Option<u16>) -> Result<Tuple, Memory> {
        let mut values = ValueList::new(self.alloc);
        for value in tuple.values.as_slice() {
            values.push(self.value(value)?)?;
        }
        let relation = self.hidden.number_of(tuple.relation, repaired);
        Tuple::new(self.alloc, relation, values)
    }

    fn tuples(&self, tuples: &[Tuple], repaired: Option<u16>) -> Result<TupleList, Memory> {
        let mut all = TupleList::new(self.alloc);
        for tuple in tuples {
            all.push(self.tuple(tuple, repaired)?)?;
        }
        Ok(all)
    }

    /// The choices that an op took, in the dump.
    pub fn choices(&self, choices: &[Choice], repaired: Option<u16>) -> Result<ChoiceList, Memory> {
        let mut all = ChoiceList::new(self.alloc);
        for choice in choices {
            all.push(self.choice(choice, repaired)?)?;
        }
        Ok(all)
    }

    fn choice(&self, choice: &Choice, repaired: Option<u16>) -> Result<Choice, Memory> {
        match choice {
            Choice::Expand => Ok(Choice::Expand),
            Choice::Unify(tuple) => Ok(Choice::Unify(self.tuple(tuple, repaired)?)),
            Choice::Delete(tuples) => Ok(Choice::Delete(self.tuples(tuples.as_slice(), repaired)?)),
        }
    }

    /// The operation in the dump; `mapping` is the number there of a mapping that it puts in force.
    pub fn operation(
        &self,
        operation: &Operation,
        repaired: Option<u16>,
        mapping: u16,
    ) -> Result<Operation, Memory> {
        match operation {
            Operation::Insert(tuple) => Ok(Operation::Insert(self.tuple(tuple, repaired)?)),
            Operation::Delete(tuple) => Ok(Operation::Delete(self.tuple(tuple, repaired)?)),
            Operation::Replace(null, value) => {
                Ok(Operation::Replace(self.null(*null), self.value(value)?))
            }
            Operation::Enact(_) => Ok(Operation::Enact(mapping)),
        }
    }
}
