//! The lines of a head.

use crate::bytes::cut_at;
use crate::cursors::Cursor;
use crate::items::Item;
use crate::stamps::stamp_of;
use crate::standing::Names;
use std::alloc::Global;
use ws_fault::Refusal;
use ws_written::{Drawn, Head, Image, Waiting};

/// Adds the content of a line to the head. The line comes as its first word and the rest.
pub(crate) fn add_line(
    alloc: Global,
    head: &mut Head,
    word: &str,
    rest: &str,
) -> Result<(), Refusal> {
    if word == "relation" {
        let mut cursor = Cursor::over(alloc, Names::of(&[]), rest);
        return add(&mut cursor, &mut head.relations);
    }
    let names = Names::of(head.relations.as_slice());
    let mut cursor = Cursor::over(alloc, names, rest);
    match word {
        "base" => add(&mut cursor, &mut head.base),
        "unknown" => add(&mut cursor, &mut head.unknowns),
        "mapping" => add(&mut cursor, &mut head.in_force),
        "proposed" => add(&mut cursor, &mut head.proposed),
        "waits" => add_waiting(alloc, names, &mut head.waiting, rest),
        "drew" => {
            let above = above(&mut cursor, head.waiting.as_mut_slice())?;
            add(&mut cursor, &mut above.drawn)
        }
        "answer" => {
            let above = above(&mut cursor, head.waiting.as_mut_slice())?;
            add(&mut cursor, &mut above.answers)
        }
        _ => cursor.fail("a line of the head"),
    }
}

// Adds the line to the list, as one item.
fn add<T: Item>(cursor: &mut Cursor<'_>, list: &mut Vec<T>) -> Result<(), Refusal> {
    list.push(cursor.last()?)?;
    Ok(())
}

// Adds an update that waits, from `TIME CURATOR LINE`.
fn add_waiting(
    alloc: Global,
    names: Names<'_>,
    list: &mut Vec<Waiting>,
    rest: &str,
) -> Result<(), Refusal> {
    let (time, after) = cut_at(rest, ' ');
    let (curator, line) = cut_at(after, ' ');
    let mut cursor = Cursor::over(alloc, names, line);
    let Some(stamp) = stamp_of(alloc, time, curator)? else {
        return cursor.fail("a time and a name");
    };
    list.push(Waiting {
        stamp,
        update: cursor.last()?,
        drawn: Vec::new(alloc),
        answers: Vec::new(alloc),
    })?;
    Ok(())
}

// Takes the number of an update, which must be the last one that waits, and returns that one.
fn above<'w>(
    cursor: &mut Cursor<'_>,
    waiting: &'w mut [Waiting],
) -> Result<&'w mut Waiting, Refusal> {
    let number = cursor.update_number()?;
    match waiting.last_mut() {
        Some(last) if last.update.number == number => Ok(last),
        _ => cursor.fail("the number of the update above"),
    }
}

// `P MAPPING VARIABLE [IMAGE]`.
impl Item for Drawn {
    fn read(cursor: &mut Cursor<'_>) -> Result<Drawn, Refusal> {
        let place = cursor.count("a place", 1, u32::MAX)?;
        let mapping = cursor.owned_name("a name")?;
        let variable = cursor.owned_name("a name")?;
        let image = cursor.image(mapping.as_str())?;
        Ok(Drawn {
            place,
            mapping,
            variable,
            image,
        })
    }
}

impl<'a> Cursor<'a> {
    fn image(&mut self, mapping: &str) -> Result<Image, Refusal> {
        if mapping == "_new" {
            return Ok(Image::New(self.count("a place", 1, u32::MAX)?));
        }
        if self.is_done() {
            return Ok(Image::Facts(Vec::new(self.alloc)));
        }
        Ok(Image::Facts(self.joined()?))
    }
}
