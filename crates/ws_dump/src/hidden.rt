//! The relations of a dump: the relations of the workspace, and the hidden ones that its updates use.

use base_types::{Memory, Name, Operation, TryCopy, Tuple};
use lang_schema::{Schema, SchemaRefusal};
use std::alloc::Global;
use std::collections::BTreeSet;
use ws_lines::Deed;
use ws_run::{FIX, UNKNOWN, WANT, shared_variables};
use ws_space::Space;
use ws_state::Standing;

/// The numbers that hidden relations have in a dump: that of `_want` (`_unknown` has the next one), and for each mapping that is
/// repaired, that of its `_fix_m`.
#[derive(Drop)]
pub(crate) struct Hidden {
    pub want: Option<u16>,
    pub fixes: Vec<Fix>,
}

/// The relation for the repairs of a mapping.
#[derive(Clone, Copy)]
pub(crate) struct Fix {
    pub mapping: u16,
    pub relation: u16,
}

impl Hidden {
    /// The number of a relation in a dump. `repaired` is the mapping whose repairs the hidden relation holds.
    pub fn number_of(&self, relation: u16, repaired: Option<u16>) -> u16 {
        if relation == FIX {
            return self.fix_of(repaired).unwrap_or(relation);
        }
        match self.want {
            Some(want) if relation == WANT => want,
            Some(want) if relation == UNKNOWN => want.saturating_add(1),
            _ => relation,
        }
    }

    fn fix_of(&self, repaired: Option<u16>) -> Option<u16> {
        let mapping = repaired?;
        for fix in self.fixes.iter() {
            if fix.mapping == mapping {
                return Some(fix.relation);
            }
        }
        None
    }
}

/// The mapping that the update held at this place repairs; None if the update is no repair.
pub(crate) fn repaired_by(space: &Space, held: usize) -> Option<u16> {
    match &space.state.held().get(held)?.update.deed {
        Deed::Fix(mapping, _) => Some(*mapping),
        _ => None,
    }
}

// Whether the update draws new unknowns.
fn draws(standing: &Standing) -> bool {
    for op in standing.ops.as_slice() {
        if is_drawing(&op.operation) {
            return true;
        }
    }
    false
}

fn is_drawing(operation: &Operation) -> bool {
    match operation {
        Operation::Insert(tuple) => is_hidden(tuple),
        Operation::Delete(tuple) => is_hidden(tuple),
        _ => false,
    }
}

fn is_hidden(tuple: &Tuple) -> bool {
    tuple.relation == WANT || tuple.relation == UNKNOWN
}

/// The relations of a dump: first the relations of the workspace, then the hidden ones that the updates which stand from place
/// `cut` on use.
pub(crate) fn relations_of(
    alloc: Global,
    space: &Space,
    cut: usize,
) -> Result<(Schema, Hidden), Memory> {
    let mut schema = Schema::new(alloc);
    let hidden = add_relations(alloc, &mut schema, space, cut)?;
    Ok((schema, hidden))
}

fn add_relations(
    alloc: Global,
    schema: &mut Schema,
    space: &Space,
    cut: usize,
) -> Result<Hidden, Memory> {
    add_tables(alloc, schema, space)?;
    let want = add_want(alloc, schema, space, cut)?;
    Ok(Hidden {
        want,
        fixes: add_fixes(alloc, schema, space, cut)?,
    })
}

fn add_tables(alloc: Global, schema: &mut Schema, space: &Space) -> Result<(), Memory> {
    for table in space.state.tables().as_slice() {
        let columns = u16::try_from(table.columns.len()).unwrap_or(u16::MAX);
        declare(schema, table.name.copy(alloc)?, columns)?;
    }
    Ok(())
}

// Adds `_want` and `_unknown` if an update draws new unknowns. Returns the number of `_want`.
fn add_want(
    alloc: Global,
    schema: &mut Schema,
    space: &Space,
    cut: usize,
) -> Result<Option<u16>, Memory> {
    if !is_drawn(space, cut) {
        return Ok(None);
    }
    let want = schema.len();
    declare(schema, name_of(alloc, "_want")?, 1)?;
    declare(schema, name_of(alloc, "_unknown")?, 2)?;
    Ok(Some(want))
}

fn is_drawn(space: &Space, cut: usize) -> bool {
    for standing in space.state.order().as_slice().iter().skip(cut) {
        if draws(standing) {
            return true;
        }
    }
    false
}

// Adds `_fix_m` for each mapping that is repaired.
fn add_fixes(
    alloc: Global,
    schema: &mut Schema,
    space: &Space,
    cut: usize,
) -> Result<Vec<Fix>, Memory> {
    let mut fixes = Vec::new(alloc);
    for mapping in repaired_from(alloc, space, cut)? {
        let relation = schema.len();
        declare_fix(alloc, schema, space, mapping)?;
        fixes.push(Fix { mapping, relation })?;
    }
    Ok(fixes)
}

// The mappings that are repaired from place `cut` on.
fn repaired_from(alloc: Global, space: &Space, cut: usize) -> Result<BTreeSet<u16>, Memory> {
    let mut repaired = BTreeSet::new(alloc);
    for standing in space.state.order().as_slice().iter().skip(cut) {
        if let Some(mapping) = repaired_by(space, standing.held) {
            repaired.insert(mapping)?;
        }
    }
    Ok(repaired)
}

// Declares `_fix_m`, with a column for each variable on both sides of the mapping, or one column if there is none.
fn declare_fix(
    alloc: Global,
    schema: &mut Schema,
    space: &Space,
    mapping: u16,
) -> Result<(), Memory> {
    let Some(declared) = space.state.mappings().get(usize::from(mapping)) else {
        return Ok(());
    };
    let columns = shared_variables(alloc, declared)?.len().max(1);
    let columns = u16::try_from(columns).unwrap_or(u16::MAX);
    declare(
        schema,
        fix_name(alloc, space.mapping_name(mapping))?,
        columns,
    )
}

fn fix_name(alloc: Global, mapping: &str) -> Result<Name, Memory> {
    let name = format!(in alloc; "_fix_{mapping}")?;
    name_of(alloc, name.as_str())
}

fn name_of(alloc: Global, text: &str) -> Result<Name, Memory> {
    Ok(Name::from_vec(Vec::from_slice(alloc, text.as_bytes())?))
}

// Adds a relation, unless a session has no room for it.
fn declare(schema: &mut Schema, name: Name, columns: u16) -> Result<(), Memory> {
    match schema.relation(name, columns) {
        Err(SchemaRefusal::Memory) => Err(Memory),
        _ => Ok(()),
    }
}
