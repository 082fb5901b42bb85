//! The commands on a session: what each makes of its input.
//!
//! `specs/Commands.antt` defines it by the language of sessions: `on_session_by makes` is what a command makes of the session
//! that the input spells, or the refusal of an input that spells none. `specs/Runs.antt` defines the commands that run the
//! updates, by the serial machine; `specs/Asked.antt` defines `ask`, and `specs/Journaled.antt` the commands on journals.
#![tactic(auto)]

mod asking;
mod audit_laws;
mod auditing;
mod base;
mod counts;
mod explaining;
mod journaling;
mod laws;
mod reading;
mod recovering;
mod runs;
mod sessions;

pub use crate::asking::Ask;
pub use crate::audit_laws::audited_inputs_have_one_output;
pub use crate::auditing::Audit;
pub use crate::base::base_refusal;
pub use crate::explaining::Explain;
pub use crate::journaling::Journal;
pub use crate::laws::{
    each_input_is_recovered_or_refused, performed_runs_write_what_holds,
    recovered_inputs_have_one_status, runs_write_what_holds,
};
pub use crate::reading::{OnSession, SessionCommand, fault_refusal};
pub use crate::recovering::Recover;
pub use crate::runs::{Save, Serial, ending_by};
pub use crate::sessions::{Check, Format, Upgrade};
