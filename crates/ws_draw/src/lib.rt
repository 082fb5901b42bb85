//! Pictures of the mappings between relations, in DOT, or in SVG with a layout computed here; and texts as HTML writes them.
#![tactic(auto)]

mod dot;
mod html;
mod layout;
mod links;
mod ranks;
mod svg;

pub use crate::dot::{add_dot_text, graph_lines};
pub use crate::html::add_html;
pub use crate::links::{Link, link_of};
pub use crate::svg::svg_of;
