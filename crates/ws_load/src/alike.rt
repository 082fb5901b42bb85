//! Spellings in a column that differ only in capitals and blanks.

use base_types::{Memory, Tuple, Value};
use caseless::default_case_fold_str;
use std::alloc::{AllocError, Global};
use ws_print::{Text, add_quoted};
use ws_report::Note;
use ws_space::Space;

// The greatest number of groups of spellings that are listed for a column.
const MOST: usize = 3;

/// Adds a hint for each column of a relation that has such spellings.
pub(crate) fn add_alike(
    alloc: Global,
    space: &Space,
    relation: u32,
    notes: &mut Vec<Note>,
) -> Result<(), Memory> {
    let Some(declared) = space.relations.get(relation as usize) else {
        return Ok(());
    };
    let rows = space.rows(alloc, relation)?;
    for (place, column) in declared.columns.iter().enumerate() {
        let texts = texts_of(alloc, rows.as_slice(), place)?;
        let groups = groups_of(alloc, texts.as_slice())?;
        if !groups.is_empty() {
            let mut words = words_for(alloc, declared.name.as_str(), column.name.as_str());
            add_groups(&mut words, texts.as_slice(), groups.as_slice());
            notes.push(Note::of(alloc, words.done()?))?;
        }
    }
    Ok(())
}

fn words_for(alloc: Global, table: &str, column: &str) -> Text {
    let mut words = Text::new(alloc);
    write!(words, "{table}.{column} has spellings that are alike: ");
    words
}

// Adds the texts of each group, which are given by their places.
fn add_groups(words: &mut Text, texts: &[&str], groups: &[Vec<usize>]) {
    for (place, group) in groups.iter().take(MOST).enumerate() {
        words.push_str(if 0 < place { "; " } else { "" });
        add_group(words, texts, group.as_slice());
    }
    if MOST < groups.len() {
        words.push_str("; ..");
    }
}

fn add_group(words: &mut Text, texts: &[&str], group: &[usize]) {
    for (place, text) in group.iter().enumerate() {
        words.push_str(if 0 < place { " and " } else { "" });
        if let Some(text) = texts.get(*text) {
            add_quoted(words, *text);
        }
    }
}

// The different texts of a column, in order.
fn texts_of<'a>(
    alloc: Global,
    rows: &'a [Tuple],
    column: usize,
) -> Result<Vec<&'a str>, AllocError> {
    let mut texts = Vec::new(alloc);
    for tuple in rows {
        if let Some(Value::Word(bytes)) = tuple.values.as_slice().get(column) {
            texts.push(str::from_utf8(bytes.as_slice()).unwrap_or(""))?;
        }
    }
    texts.sort_unstable();
    texts.dedup();
    Ok(texts)
}

// The groups of similar texts, by places. Each group is in order, and the groups are in the order of their first texts.
fn groups_of(alloc: Global, texts: &[&str]) -> Result<Vec<Vec<usize>>, AllocError> {
    let mut forms = Vec::new(alloc);
    for (place, text) in texts.iter().enumerate() {
        forms.push((form_of(alloc, *text)?, place))?;
    }
    forms.sort_unstable();
    let mut groups = Vec::new(alloc);
    for (one, next) in forms.iter().zip(forms.iter().skip(1)) {
        if one.0 == next.0 {
            join(alloc, &mut groups, one.1, next.1)?;
        }
    }
    groups.sort_unstable();
    Ok(groups)
}

// Adds a text to the last group, if that ends with the text of this place; else the two are a group of their own.
fn join(
    alloc: Global,
    groups: &mut Vec<Vec<usize>>,
    last: usize,
    next: usize,
) -> Result<(), AllocError> {
    if let Some(group) = groups.last_mut() {
        if group.last().copied() == Some(last) {
            group.push(next)?;
            return Ok(());
        }
    }
    let mut group = Vec::new(alloc);
    group.push(last)?;
    group.push(next)?;
    groups.push(group)?;
    Ok(())
}

// The form that similar texts share: their words without capitals, with one blank between two words.
fn form_of(alloc: Global, text: &str) -> Result<String, AllocError> {
    let folded = default_case_fold_str(alloc, text)?;
    let mut form = Text::new(alloc);
    for word in folded.as_str().split(is_blank) {
        if !word.is_empty() {
            form.push_str(if form.is_empty() { "" } else { " " });
            form.push_str(word);
        }
    }
    form.done()
}

fn is_blank(letter: char) -> bool {
    letter.is_whitespace() || ('\u{1c}' <= letter && letter <= '\u{1f}')
}
