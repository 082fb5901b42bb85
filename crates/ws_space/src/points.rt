//! Points: earlier workspaces, to go back to.

use crate::changed::Changed;
use crate::copies::copy_rules;
use crate::folding::add_relations;
use crate::spaces::Space;
use base_types::Memory;
use std::alloc::Global;
use ws_state::Point as StatePoint;
use ws_written::{Relation, Rule};

/// What a workspace goes back to after lines that are not recorded.
pub struct Point {
    state: StatePoint,
    relations: Vec<Relation>,
    rules: Vec<Rule>,
}

impl Drop for Point {
    fn drop(self) {
        let Point {
            state,
            relations: _,
            rules: _,
        } = self;
        drop(state);
    }
}

impl Point {
    // What it goes back to: the state, the relations and the mappings.
    fn parts(self) -> (StatePoint, Vec<Relation>, Vec<Rule>) {
        let Point {
            state,
            relations,
            rules,
        } = self;
        (state, relations, rules)
    }
}

impl Space {
    /// The workspace as it is now. Each line so far must be recorded.
    pub fn point(&mut self, alloc: Global) -> Result<Point, Memory> {
        let mut relations = Vec::new(alloc);
        add_relations(&mut relations, self.relations.as_slice())?;
        Ok(Point {
            relations,
            rules: copy_rules(alloc, self.rules.as_slice())?,
            state: self.state.point(alloc)?,
        })
    }

    /// Takes back the lines taken since the point. After a refusal, the space is of no use.
    pub fn back_to(&mut self, alloc: Global, point: Point) -> Result<(), Memory> {
        let (state, relations, rules) = point.parts();
        self.relations = relations;
        self.rules = rules;
        self.changed = Changed::new(alloc);
        self.state.back_to(alloc, state)
    }
}
