//! Calls of seats, one a line, and their answers.
use crate::hands::{Move, Told};
use crate::leads::{Lead, Turn};
use crate::tables::Side;
use core_entries::Entry;
use lang_schema::Schema;
use std::alloc::Global;
use try_cases::{CaseRefusal, number_of, with_entries, with_line};

/// Calls in order, how many of them were made, and what they answered. If memory runs out in a call, its seat makes what is due
/// once more, up to that call. The failed call changed nothing, so the answers are the same as with ample memory.
#[derive(Drop)]
pub struct Script {
    turns: Vec<Turn>,
    place: usize,
    answers: Vec<Told>,
    is_again: bool,
}

/// The script of these lines. An error if a line spells no call.
pub fn read_script(alloc: Global, lines: &[String]) -> Result<Script, CaseRefusal> {
    let mut turns = Vec::new(alloc);
    for line in lines {
        turns.push(read_turn(line.as_str())?)?;
    }
    Ok(Script {
        turns,
        place: 0,
        answers: Vec::new(alloc),
        is_again: false,
    })
}

// The call that the line spells.
fn read_turn(line: &str) -> Result<Turn, CaseRefusal> {
    let Some((word, name)) = line.split_once(' ') else {
        return Err(CaseRefusal::Spelling);
    };
    let side = match number_of(name, 's')? {
        1 => Side::First,
        2 => Side::Second,
        3 => Side::Third,
        _ => return Err(CaseRefusal::Spelling),
    };
    let call = match word {
        "next" => Move::Next,
        "evaluate" => Move::Evaluate,
        "finish" => Move::Finish,
        "back" => Move::Back,
        _ => return Err(CaseRefusal::Spelling),
    };
    Ok(Turn { side, call })
}

impl Lead for Script {
    fn next(&mut self, due: [Move; 3]) -> Result<Option<Turn>, CaseRefusal> {
        let Some(Turn { side, call }) = self.turn() else {
            return Ok(None);
        };
        let call = if self.is_again { side.of(due) } else { call };
        Ok(Some(Turn { side, call }))
    }

    fn hear(&mut self, turn: Turn, told: Told) -> Result<(), CaseRefusal> {
        if told == Told::Memory {
            return self.begin_again();
        }
        if self.is_made_by(turn.call) {
            self.answers.push(told)?;
            self.place = self.place.saturating_add(1);
            self.is_again = false;
        }
        Ok(())
    }
}

impl Script {
    // The call that is due now.
    fn turn(&self) -> Option<Turn> {
        self.turns.as_slice().get(self.place).copied()
    }

    // Whether that call is this one.
    fn is_made_by(&self, call: Move) -> bool {
        match self.turn() {
            Some(turn) => turn.call == call,
            None => false,
        }
    }

    // Lets the call be made once more. An error if it was already made once more.
    fn begin_again(&mut self) -> Result<(), CaseRefusal> {
        if self.is_again {
            return Err(CaseRefusal::Memory);
        }
        self.is_again = true;
        Ok(())
    }

    /// The text of what the calls answered, and then of the entries.
    pub fn told(
        &self,
        alloc: Global,
        schema: &Schema,
        history: &[Entry],
    ) -> Result<Vec<u8>, CaseRefusal> {
        let mut text = Vec::new(alloc);
        for answer in self.answers.as_slice() {
            let line = format!(in alloc; "{answer}")?;
            text = with_line(text, line.as_str())?;
        }
        with_entries(alloc, text, schema, history, 0)
    }
}
