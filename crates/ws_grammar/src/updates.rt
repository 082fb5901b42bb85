//! Updates and answers of the log.

use crate::cursors::Cursor;
use crate::items::Item;
use ws_fault::Refusal;
use ws_written::{Answer, Choice, Fact, NumberedUpdate, Question, STEPS, Unknown, Update, Value};

// `N [steps N] UPDATE`.
impl Item for NumberedUpdate {
    fn read(cursor: &mut Cursor<'_>) -> Result<NumberedUpdate, Refusal> {
        let number = cursor.update_number()?;
        let mut steps = STEPS;
        if cursor.take_word("steps") {
            steps = cursor.count("steps", 1, 1_000_000)?;
        }
        let update = cursor.update()?;
        Ok(NumberedUpdate {
            number,
            steps,
            update,
        })
    }
}

// `CHOICE to NAME FACT, ..`, the part of an answer after its verb and its number.
impl Item for Answer {
    fn read(cursor: &mut Cursor<'_>) -> Result<Answer, Refusal> {
        let choice = cursor.chosen()?;
        match cursor.question() {
            Ok(question) => Ok(Answer { choice, question }),
            Err(refusal) => {
                drop(choice);
                Err(refusal)
            }
        }
    }
}

impl<'a> Cursor<'a> {
    fn update(&mut self) -> Result<Update, Refusal> {
        match self.name("an update")? {
            "insert" => Ok(Update::Insert(self.joined()?)),
            "delete" => Ok(Update::Delete(self.joined()?)),
            "replace" => self.replacing(),
            "fix" => self.fix(),
            "force" => Ok(Update::Force(self.owned_name("a name")?)),
            "drop" => Ok(Update::Drop(self.owned_name("a name")?)),
            _ => self.fail("an update"),
        }
    }

    /// Takes `with` and an item.
    pub(crate) fn with<T: Item>(&mut self) -> Result<T, Refusal> {
        self.keyword("with")?;
        T::read(self)
    }

    fn replacing(&mut self) -> Result<Update, Refusal> {
        if self.is_sign("?") {
            let unknown = Unknown::read(self)?;
            return Ok(Update::Fill(unknown, self.with()?));
        }
        let old = Fact::read(self)?;
        Ok(Update::Change(old, self.with()?))
    }

    // `fix m(V, ..)`, or `fix m()` if no variable stands on both sides.
    fn fix(&mut self) -> Result<Update, Refusal> {
        let mapping = self.owned_name("a name")?;
        Ok(Update::Fix(mapping, self.fix_values()?))
    }

    fn fix_values(&mut self) -> Result<Vec<Value>, Refusal> {
        self.sign("(", "(")?;
        if self.take_sign(")") {
            return Ok(Vec::new(self.alloc));
        }
        self.to_bracket()
    }

    // `to NAME FACT, ..`.
    fn question(&mut self) -> Result<Question, Refusal> {
        self.keyword("to")?;
        let mapping = self.owned_name("a name")?;
        let facts = self.joined()?;
        Ok(Question { mapping, facts })
    }

    fn chosen(&mut self) -> Result<Choice, Refusal> {
        if self.take_word("expand") {
            return Ok(Choice::Expand);
        }
        if self.take_word("unify") {
            return Ok(Choice::Unify(Fact::read(self)?));
        }
        if self.take_word("delete") {
            return Ok(Choice::Delete(self.joined()?));
        }
        self.fail("a choice")
    }
}
