//! The context of a command: for whom it is done, when, and in which form it replies.

/// The form of a reply.
#[derive(Clone, Copy, PartialEq, Eq)]
pub enum Form {
    /// Lines for a person.
    Text,
    /// Objects of JSON, one on each line.
    Json,
}

/// The context of a command: for whom it is done, when, and in which form it replies.
#[derive(Clone, Copy)]
pub struct Context<'a> {
    /// The name of the curator.
    pub curator: &'a str,
    /// The time, as `YYYY-MM-DDThh:mm:ssZ`.
    pub time: &'a str,
    /// The workspace's file, as faults name it.
    pub file: &'a str,
    pub form: Form,
    /// Whether the command is only tried.
    pub trying: bool,
}

impl<'a> Context<'a> {
    /// Whether the reply has the form of objects.
    pub fn is_json(&self) -> bool {
        self.form == Form::Json
    }
}
