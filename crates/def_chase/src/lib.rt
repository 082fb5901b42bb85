//! The definitions of the chase over pure data, and their laws.
#![tactic(auto)]

mod laws;

pub use crate::laws::{
    caused_is_all, caused_values_are_all, first_violation_is_least, image_determines,
    members_determine, mentions_decide, more_specific_is_decided, orders_are_total,
    outer_forms_keep_order, shifts_commute, unifier_ends_walks, unifier_unites,
    violation_is_decided, worked_values, writes_apply,
};
