//! The command `answer`.

use crate::changes::Changed;
use crate::cursors::Cursor;
use crate::items::Item;
use crate::options::Options;
use ws_command::{Change, Opt, SaidChoice, Verb};
use ws_fault::Refusal;
use ws_written::Fact;

// The choice of an answer, and the options after it.
type Chosen = (SaidChoice, Options);

impl<'a> Cursor<'a> {
    /// The change that the rest of an `answer` asks for.
    pub(crate) fn answer_change(&mut self) -> Result<Changed, Refusal> {
        let numbers = self.distinct_numbers()?;
        let (choice, options) = self.choice_and_options(numbers.len())?;
        let at = options.number(Opt::At);
        let change = Change::Answer {
            numbers,
            choice,
            at,
        };
        Ok((change, options.still()))
    }

    // The choice of an answer to `count` updates, and the options.
    fn choice_and_options(&mut self, count: usize) -> Result<Chosen, Refusal> {
        let choice = if 1 < count {
            self.common_choice()?
        } else {
            self.choice()?
        };
        match self.options(Verb::Answer) {
            Ok(options) => Ok((choice, options)),
            Err(refusal) => {
                drop(choice);
                Err(refusal)
            }
        }
    }

    // The choice of an answer to several updates.
    fn common_choice(&mut self) -> Result<SaidChoice, Refusal> {
        if self.takes_new() {
            return Ok(SaidChoice::New);
        }
        if self.take_word("go") {
            return Ok(SaidChoice::Go);
        }
        self.fail_with(
            "new or go",
            "several updates take the answer new or go alone",
        )
    }

    fn takes_new(&mut self) -> bool {
        self.take_word("new") || self.take_word("expand")
    }

    // Takes `word`, if it stands here and is not the name of a relation in front of a bracket.
    fn takes_verb(&mut self, word: &str) -> bool {
        !self.is_tuple() && self.take_word(word)
    }

    // The choice of an answer to one update.
    fn choice(&mut self) -> Result<SaidChoice, Refusal> {
        if self.is_number() {
            return Ok(SaidChoice::Numbers(self.joined()?));
        }
        if self.takes_new() {
            return Ok(SaidChoice::New);
        }
        if self.take_word("go") || self.is_done() || self.is_sign("--") {
            return Ok(SaidChoice::Go);
        }
        if self.takes_verb("unify") {
            return Ok(SaidChoice::Unify(Fact::read(self)?));
        }
        if self.takes_verb("delete") {
            return Ok(SaidChoice::Delete(self.joined()?));
        }
        Ok(SaidChoice::Facts(self.joined()?))
    }
}
