//! Updates.

use crate::facts::{add_fact, add_facts, add_new_fact, add_new_facts};
use crate::texts::Text;
use crate::values::{add_unknown, add_value, add_values};
use std::fmt::Write;
use ws_written::{NumberedUpdate, Relation, STEPS, Update};

/// Adds an update, as a command or, for `fix` and `force`, as a line of the log.
pub fn add_update(out: &mut Text, relations: &[Relation], update: &Update) {
    match update {
        Update::Insert(facts) => {
            out.push_str("insert ");
            add_new_facts(out, relations, facts.as_slice())
        }
        Update::Delete(facts) => {
            out.push_str("delete ");
            add_facts(out, relations, facts.as_slice())
        }
        Update::Fill(unknown, value) => {
            out.push_str("replace ");
            add_unknown(out, *unknown);
            out.push_str(" with ");
            add_value(out, value)
        }
        Update::Change(old, new) => {
            out.push_str("replace ");
            add_fact(out, relations, old);
            out.push_str(" with ");
            add_new_fact(out, relations, new)
        }
        Update::Fix(mapping, values) => {
            write!(out, "fix {mapping}(");
            add_values(out, values.as_slice());
            out.push(')')
        }
        Update::Force(mapping) => write!(out, "force {mapping}"),
        Update::Drop(mapping) => write!(out, "drop {mapping}"),
    }
}

/// Adds `N [steps N] UPDATE`.
pub fn add_numbered(out: &mut Text, relations: &[Relation], numbered: &NumberedUpdate) {
    let number = numbered.number;
    write!(out, "{number} ");
    if numbered.steps != STEPS {
        let steps = numbered.steps;
        write!(out, "steps {steps} ");
    }
    add_update(out, relations, &numbered.update)
}
