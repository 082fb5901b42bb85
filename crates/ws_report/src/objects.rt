//! The object of a change.

use crate::notes::Note;
use crate::replies::CANDIDATES;
use crate::reports::{AgainTold, Report, Telling};
use crate::words::named_text;
use base_types::Value;
use def_memory::Memory;
use std::alloc::Global;
use ws_json::{Items, Object};
use ws_question::{fact_text, question_object};
use ws_reply::{number_items, text_items};
use ws_space::Space;
use ws_state::{Filled, Moved};

impl Report {
    /// The object of the reply, without its status.
    pub(crate) fn object(
        &self,
        alloc: Global,
        space: &Space,
        trying: bool,
        at: u32,
    ) -> Result<Object, Memory> {
        let asked = self.asked(alloc, space)?;
        let mut object = Object::new(alloc);
        if let Some(asked) = asked {
            object.object("question", asked);
        }
        object.text("reply", if trying { "try" } else { "change" });
        object.text("did", self.did);
        object.text("line", self.line.as_str());
        object.number("at", i64::from(at));
        if let Some(number) = self.number {
            object.number("number", i64::from(number));
        }
        self.add_effect(alloc, space, &mut object);
        self.add_lists(alloc, &mut object);
        if !trying && !self.next.is_empty() {
            object.items("next", text_items(alloc, self.next.as_slice()));
        }
        Ok(object)
    }

    // The object of the report's question, if it has one.
    fn asked(&self, alloc: Global, space: &Space) -> Result<Option<Object>, Memory> {
        match &self.question {
            Some(question) => Ok(Some(question_object(alloc, space, question, None, CANDIDATES)?)),
            None => Ok(None),
        }
    }

    fn add_effect(&self, alloc: Global, space: &Space, object: &mut Object) {
        let with_mapping = self.telling == Telling::Whole;
        let came = moved_items(alloc, space, self.effect.came.as_slice(), with_mapping);
        let went = moved_items(alloc, space, self.effect.went.as_slice(), with_mapping);
        object.items("came", came);
        object.items("went", went);
        object.items(
            "filled",
            filled_items(alloc, space, self.effect.filled.as_slice()),
        );
    }

    // Adds the lists: further lines, other updates, hints, and the updates of a change of several.
    fn add_lists(&self, alloc: Global, object: &mut Object) {
        if self.telling != Telling::Whole || !self.also.is_empty() {
            object.items("also", text_items(alloc, self.also.as_slice()));
        }
        if !self.again.is_empty() {
            object.items("again", again_items(alloc, self.again.as_slice()));
        }
        if !self.notes.is_empty() {
            object.items("notes", note_items(alloc, self.notes.as_slice()));
        }
        if let Some(counted) = &self.counted {
            object.items("numbers", number_items(alloc, counted.numbers.as_slice()));
            object.items("waiting", number_items(alloc, counted.waiting.as_slice()));
        }
    }
}

fn note_items(alloc: Global, notes: &[Note]) -> Items {
    let mut items = Items::new(alloc);
    for note in notes {
        items.object(note.object(alloc));
    }
    items
}

fn moved_items(alloc: Global, space: &Space, moved: &[Moved], with_mapping: bool) -> Items {
    let mut items = Items::new(alloc);
    for one in moved {
        let mut object = Object::new(alloc);
        object.made("tuple", fact_text(alloc, space, &one.tuple));
        if let Some(number) = one.by {
            if with_mapping {
                object.text("by", space.mapping_name(number));
            }
        }
        items.object(object);
    }
    items
}

fn filled_items(alloc: Global, space: &Space, filled: &[Filled]) -> Items {
    let mut items = Items::new(alloc);
    for one in filled {
        let name = Value::Null(one.name);
        let mut object = Object::new(alloc);
        object.made("unknown", named_text(alloc, space, &name));
        object.made("value", named_text(alloc, space, &one.value));
        object.number("tuples", i64::from(one.tuples));
        items.object(object);
    }
    items
}

fn again_items(alloc: Global, again: &[AgainTold]) -> Items {
    let mut items = Items::new(alloc);
    for one in again {
        let mut object = Object::new(alloc);
        object.number("number", i64::from(one.number));
        object.text("now", one.now);
        object.text("words", one.words.as_str());
        items.object(object);
    }
    items
}
