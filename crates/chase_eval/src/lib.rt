//! The values of queries over a set of tuples, as an update sees it: with its own writes applied.
//!
//! A `View` is the set with the writes applied, and answers any number of queries. `eval` and `eval_all` make one for a single
//! query. An `AppliedView` is over a set that has the writes already. A `WatchedView` is the view of one update, and does not
//! search a mapping for violations again if nothing can have changed. The value of a query is `value` of `def_chase`.
#![tactic(auto)]

mod answers;
mod applied;
mod occurrences;
mod scopes;
mod settled;
mod touching;
mod values;
mod view;
mod watched;

pub use crate::applied::AppliedView;
pub use crate::settled::Settled;
pub use crate::touching::Touching;
pub use crate::values::{eval, eval_all};
pub use crate::view::View;
pub use crate::watched::WatchedView;
