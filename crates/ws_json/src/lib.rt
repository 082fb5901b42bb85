//! Objects of JSON, each on one line: without blanks, with rising keys.
//!
//! This is a thin layer over `serde_json`, whose maps are in the order of their keys. The calls that add to an object return no
//! error: it remembers a want of memory, and `into_line` returns it.
#![tactic(auto)]

mod objects;

pub use crate::objects::{Items, Object};
