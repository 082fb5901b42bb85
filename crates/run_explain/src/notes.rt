//! The notes of the steps that put a tuple.
ghost use Rattle.std.specs.Prelude.{◌≡◌, ◌++◌, OnOk};
ghost use Rattle.def_provenance.specs.Notes.{unless_none};
ghost use Rattle.run_explain.specs.NoteMeanings.{notes_in};
ghost use Rattle.run_note.specs.Meanings.{note_of};

use base_types::{List, Memory};
use run_note::Note;

/// Notes of steps, in the order in which they were made.
pub type NoteList = List<Note>;

/// Adds the note, unless nothing was put.
pub(crate) fn add(notes: &mut NoteList, note: Note) -> Result<(), Memory>
    ensures added { OnOk result (notes_in notes.new ≡
        notes_in notes.old ++ unless_none (note_of note).puts (note_of note)) }
{
    if note.puts.is_empty() {
        return Ok(());
    }
    notes.push(note)?;
    Ok(())
}

/// Adds the notes.
pub(crate) fn add_all(notes: &mut NoteList, more: NoteList) -> Result<(), Memory>
    ensures added { OnOk result (notes_in notes.new ≡ notes_in notes.old ++ notes_in more) }
{
    for note in more.into_vec() {
        notes.push(note)?;
    }
    Ok(())
}
