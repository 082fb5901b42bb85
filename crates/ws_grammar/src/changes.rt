//! Commands that change the workspace.

use crate::cursors::Cursor;
use crate::items::Item;
use crate::options::Options;
use ws_command::{Bounds, Change, Opt, Pattern, Verb};
use ws_fault::Refusal;
use ws_written::{Relation, STEPS, Value};

/// A change, and the record of `--still`.
pub(crate) type Changed = (Change, Option<u32>);

// The bounds of an update without options.
const USUAL: Bounds = Bounds {
    only: false,
    cascade: false,
    steps: STEPS,
};

impl<'a> Cursor<'a> {
    /// The change that a verb and the rest of its line ask for.
    pub(crate) fn change(&mut self, verb: Verb) -> Result<Changed, Refusal> {
        match verb {
            Verb::Answer => self.answer_change(),
            Verb::Load => self.load_change(),
            _ => self.change_with_options(verb),
        }
    }

    fn change_with_options(&mut self, verb: Verb) -> Result<Changed, Refusal> {
        let change = self.change_alone(verb)?;
        match self.options(verb) {
            Ok(options) => Ok((with_options(change, &options), options.still())),
            Err(refusal) => {
                drop(change);
                Err(refusal)
            }
        }
    }

    // The change without its options, with the usual bounds.
    fn change_alone(&mut self, verb: Verb) -> Result<Change, Refusal> {
        match verb {
            Verb::Relation => Ok(Change::Relation(Relation::read(self)?)),
            Verb::Mapping => Ok(Change::Mapping(self.new_rule()?)),
            Verb::Adopt => Ok(Change::Adopt(self.mapping()?, STEPS)),
            Verb::Drop => Ok(Change::Drop(self.mapping()?)),
            Verb::Insert => Ok(Change::Insert(self.joined()?, USUAL)),
            Verb::Delete => Ok(Change::Delete(self.joined()?, USUAL)),
            Verb::Replace => self.replaced(),
            Verb::Undo => Ok(Change::Undo(self.numbers()?)),
            Verb::Redo => Ok(Change::Redo(self.numbers()?)),
            _ => Ok(Change::Fold),
        }
    }

    fn replaced(&mut self) -> Result<Change, Refusal> {
        if self.is_sign("?") {
            let unknown = self.value()?;
            return Ok(Change::Fill(unknown, self.with()?, USUAL));
        }
        if !self.is_name() {
            return self.fail("an unknown such as ?12.1, or a tuple");
        }
        let old = Pattern::read(self)?;
        Ok(Change::Replace(old, self.with()?, USUAL))
    }
}

fn with_options(change: Change, options: &Options) -> Change {
    match change {
        Change::Adopt(mapping, _) => Change::Adopt(mapping, options.steps()),
        Change::Insert(facts, _) => Change::Insert(facts, options.bounds()),
        Change::Delete(patterns, _) => Change::Delete(patterns, options.bounds()),
        Change::Fill(unknown, value, _) => Change::Fill(unknown, value, options.bounds()),
        Change::Replace(old, new, _) => Change::Replace(old, new, options.bounds()),
        Change::Undo(numbers) => {
            if options.has(Opt::Answers) {
                return Change::UndoAnswers(numbers);
            }
            Change::Undo(numbers)
        }
        other => other,
    }
}
