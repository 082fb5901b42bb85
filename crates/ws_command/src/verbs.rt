//! The verbs that begin a command.

/// A verb.
#[derive(Clone, Copy, PartialEq, Eq)]
pub enum Verb {
    Relation,
    Mapping,
    Adopt,
    Drop,
    Insert,
    Delete,
    Replace,
    Answer,
    Undo,
    Redo,
    Try,
    Load,
    Fold,
    Show,
    Ask,
    Why,
    Questions,
    Violations,
    Log,
    Status,
    Graph,
    Page,
    Export,
    Dump,
    Help,
    Quit,
}

/// All verbs, in the order in which a word is compared with them.
pub const VERBS: [Verb; 26] = [
    Verb::Relation,
    Verb::Mapping,
    Verb::Adopt,
    Verb::Drop,
    Verb::Insert,
    Verb::Delete,
    Verb::Replace,
    Verb::Answer,
    Verb::Undo,
    Verb::Redo,
    Verb::Try,
    Verb::Load,
    Verb::Fold,
    Verb::Show,
    Verb::Ask,
    Verb::Why,
    Verb::Questions,
    Verb::Violations,
    Verb::Log,
    Verb::Status,
    Verb::Graph,
    Verb::Page,
    Verb::Export,
    Verb::Dump,
    Verb::Help,
    Verb::Quit,
];

impl Verb {
    /// The word for the verb.
    pub fn word(self) -> &'static str {
        match self {
            Verb::Relation => "relation",
            Verb::Mapping => "mapping",
            Verb::Adopt => "adopt",
            Verb::Drop => "drop",
            Verb::Insert => "insert",
            Verb::Delete => "delete",
            Verb::Replace => "replace",
            Verb::Answer => "answer",
            Verb::Undo => "undo",
            Verb::Redo => "redo",
            Verb::Try => "try",
            Verb::Load => "load",
            Verb::Fold => "fold",
            Verb::Show => "show",
            Verb::Ask => "ask",
            Verb::Why => "why",
            Verb::Questions => "questions",
            Verb::Violations => "violations",
            Verb::Log => "log",
            Verb::Status => "status",
            Verb::Graph => "graph",
            Verb::Page => "page",
            Verb::Export => "export",
            Verb::Dump => "dump",
            Verb::Help => "help",
            Verb::Quit => "quit",
        }
    }

    /// The verb for a word; `exit` means `quit`.
    pub fn of(word: &str) -> Option<Verb> {
        if word == "exit" {
            return Some(Verb::Quit);
        }
        VERBS.iter().copied().find(|verb| verb.word() == word)
    }

    /// Whether the command changes the workspace.
    pub fn changes(self) -> bool {
        match self {
            Verb::Relation | Verb::Mapping | Verb::Adopt | Verb::Drop => true,
            Verb::Insert | Verb::Delete | Verb::Replace | Verb::Answer => true,
            Verb::Undo | Verb::Redo | Verb::Load | Verb::Fold => true,
            _ => false,
        }
    }
}
