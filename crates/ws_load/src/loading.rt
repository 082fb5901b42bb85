//! A load, from the text of its file to what its record says.

use crate::faults::refused;
use crate::rows::Inserted;
use crate::standing::standing_unknowns;
use crate::telling::{Loading, line_of};
use base_types::Memory;
use std::alloc::Global;
use ws_cells::{CsvReader, Fitted, Form, Loaded, LoadedRow, facts_of, fit, form_of, text_of};
use ws_command::Load;
use ws_fault::Refusal;
use ws_reply::{Context, Outcome, Reply};
use ws_report::Report;
use ws_space::Space;
use ws_state::Mark;
use ws_written::{Relation, Unknown};

/// The greatest number of tuples in a workspace.
const TUPLES: usize = 1_000_000;

/// What is loaded: the bytes of the file, and its name in faults.
#[derive(Clone, Copy)]
pub struct Input<'a> {
    pub path: &'a str,
    pub bytes: &'a [u8],
}

/// What was read from a file: how it fits the relation, and its rows.
#[derive(Drop)]
pub struct Rows {
    fitted: Fitted,
    loaded: Loaded,
}

/// Loads the rows, in the name of the curator whom the space knows. After a refusal, nothing is to be recorded, and the space may
/// have changed.
pub fn load(
    alloc: Global,
    space: &mut Space,
    context: &Context<'_>,
    load: &Load,
    rows: Rows,
) -> Result<Outcome, Refusal> {
    let Rows { fitted, loaded } = rows;
    load_rows(alloc, space, context, load, fitted, loaded)
}

/// Reads the rows of a file. The refusal lists all faults of the file.
pub fn read(alloc: Global, space: &Space, load: &Load, input: Input<'_>) -> Result<Rows, Refusal> {
    let form = form_of(alloc, load)?;
    read_as(alloc, space, load, &form, input)
}

fn read_as(
    alloc: Global,
    space: &Space,
    load: &Load,
    form: &Form,
    input: Input<'_>,
) -> Result<Rows, Refusal> {
    let text = text_of(alloc, input.path, input.bytes)?;
    let mut reader = CsvReader::over(alloc, text, form.separator);
    let fitted = fitted_by(alloc, space, load, form, input.path, &mut reader)?;
    let loaded = rows_of(alloc, space, &mut reader, form, &fitted, input.path)?;
    Ok(Rows { fitted, loaded })
}

// How the file fits the relation, by its header.
fn fitted_by(
    alloc: Global,
    space: &Space,
    load: &Load,
    form: &Form,
    path: &str,
    reader: &mut CsvReader<'_>,
) -> Result<Fitted, Refusal> {
    match reader.next_row()? {
        Some(first) => fit(alloc, load, form, space.relations.as_slice(), path, &first),
        None => {
            let words = format!(in alloc; "{path} has no header")?;
            Err(refused(alloc, words))
        }
    }
}

fn rows_of(
    alloc: Global,
    space: &Space,
    reader: &mut CsvReader<'_>,
    form: &Form,
    fitted: &Fitted,
    path: &str,
) -> Result<Loaded, Refusal> {
    let standing = unknowns_for(alloc, space, form)?;
    facts_of(alloc, reader, form, fitted, standing.as_slice(), path)
}

// The unknowns that cells may name; none unless the form allows it.
fn unknowns_for(alloc: Global, space: &Space, form: &Form) -> Result<Vec<Unknown>, Memory> {
    if form.unknowns {
        return standing_unknowns(alloc, space);
    }
    Ok(Vec::new(alloc))
}

// Declares the relation if needed, inserts the rows, and makes the reply.
fn load_rows(
    alloc: Global,
    space: &mut Space,
    context: &Context<'_>,
    load: &Load,
    fitted: Fitted,
    loaded: Loaded,
) -> Result<Outcome, Refusal> {
    let mut inserted = Inserted::new(alloc);
    match told(alloc, space, context, load, fitted, loaded, &mut inserted) {
        Ok(reply) => Ok(Outcome {
            reply,
            lines: inserted.lines,
            updates: inserted.updates,
        }),
        Err(refusal) => {
            drop(inserted);
            Err(refusal)
        }
    }
}

// Inserts the rows, and returns the reply.
fn told(
    alloc: Global,
    space: &mut Space,
    context: &Context<'_>,
    load: &Load,
    fitted: Fitted,
    loaded: Loaded,
    inserted: &mut Inserted,
) -> Result<Reply, Refusal> {
    let skipped = usize::try_from(loaded.skipped).unwrap_or(usize::MAX);
    let rows = loaded.rows.len().saturating_add(skipped);
    let relation = fitted.relation;
    let begin = insert(
        alloc,
        space,
        fitted.created,
        loaded.rows,
        load.steps,
        inserted,
    )?;
    let loading = Loading {
        relation,
        rows,
        skipped,
        inserted: &*inserted,
    };
    let report = report_of(alloc, space, load, loading, begin)?;
    let is_recorded = !loading.inserted.is_nothing();
    Ok(report.into_reply(alloc, space, context, is_recorded)?)
}

// The beginning of the updates: the number of updates that stood before them, and the place in the log.
#[derive(Clone, Copy)]
struct Begin {
    first: usize,
    mark: Mark,
}

fn insert(
    alloc: Global,
    space: &mut Space,
    created: Option<Relation>,
    rows: Vec<LoadedRow>,
    steps: u32,
    inserted: &mut Inserted,
) -> Result<Begin, Refusal> {
    if let Some(relation) = created {
        inserted.declare(alloc, space, relation)?;
    }
    has_room(alloc, space, rows.len())?;
    let begin = Begin {
        first: space.state.order().len(),
        mark: space.state.mark(),
    };
    inserted.add_all(alloc, space, rows, steps)?;
    Ok(begin)
}

fn report_of(
    alloc: Global,
    space: &Space,
    load: &Load,
    loading: Loading<'_>,
    begin: Begin,
) -> Result<Report, Memory> {
    let line = line_of(alloc, load)?;
    if loading.inserted.is_nothing() {
        return Ok(loading.nothing(alloc, line)?);
    }
    let effect = space.state.effect_since(alloc, begin.mark)?;
    loading.report(alloc, space, line, begin.first, effect)
}

// Refuses more rows than there is room for.
fn has_room(alloc: Global, space: &Space, rows: usize) -> Result<(), Refusal> {
    if space.state.facts().len().saturating_add(rows) <= TUPLES {
        return Ok(());
    }
    let words = format!(in alloc; "there would be more than {TUPLES} tuples")?;
    Err(refused(alloc, words))
}
