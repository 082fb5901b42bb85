//! The head of a file.

use crate::facts::{add_fact, add_facts};
use crate::lines::{add_answer, add_stamp};
use crate::rules::{add_form, add_rule};
use crate::texts::Text;
use crate::updates::add_numbered;
use crate::values::add_unknown;
use std::fmt::Write;
use ws_written::{Drawn, Fact, Head, Image, Relation, Rule, Unknown, Waiting};

fn add_relations(out: &mut Text, relations: &[Relation]) {
    for relation in relations {
        out.push_str("relation ");
        add_form(out, relation);
        out.push('\n');
    }
}

fn add_rules(out: &mut Text, word: &str, relations: &[Relation], rules: &[Rule]) {
    for rule in rules {
        out.push_str(word);
        add_rule(out, relations, rule);
        out.push('\n');
    }
}

fn add_unknowns(out: &mut Text, unknowns: &[Unknown]) {
    for unknown in unknowns {
        out.push_str("unknown ");
        add_unknown(out, *unknown);
        out.push('\n');
    }
}

fn add_base(out: &mut Text, relations: &[Relation], facts: &[Fact]) {
    for fact in facts {
        out.push_str("base ");
        add_fact(out, relations, fact);
        out.push('\n');
    }
}

fn add_image(out: &mut Text, relations: &[Relation], image: &Image) {
    match image {
        Image::New(number) => write!(out, " {number}"),
        Image::Facts(facts) => {
            if facts.is_empty() {
                return;
            }
            out.push(' ');
            add_facts(out, relations, facts.as_slice())
        }
    }
}

fn add_drawn(out: &mut Text, relations: &[Relation], number: u32, drawn: &Drawn) {
    let place = drawn.place;
    let mapping = drawn.mapping.as_str();
    let variable = drawn.variable.as_str();
    write!(out, "drew {number} {place} {mapping} {variable}");
    add_image(out, relations, &drawn.image);
    out.push('\n')
}

fn add_waiting(out: &mut Text, relations: &[Relation], waiting: &Waiting) {
    let number = waiting.update.number;
    out.push_str("waits ");
    add_stamp(out, &waiting.stamp);
    out.push(' ');
    add_numbered(out, relations, &waiting.update);
    out.push('\n');
    for drawn in waiting.drawn.iter() {
        add_drawn(out, relations, number, drawn);
    }
    for answer in waiting.answers.iter() {
        add_answer(out, relations, number, answer);
        out.push('\n');
    }
}

/// Adds the text of a head.
pub fn add_head(out: &mut Text, head: &Head) {
    let relations = head.relations.as_slice();
    let last = head.last;
    let at = head.at;
    out.push_str("yt 1\ncreated ");
    add_stamp(out, &head.created);
    write!(out, "\nlast {last} at {at}\n");
    add_relations(out, relations);
    add_rules(out, "mapping ", relations, head.in_force.as_slice());
    add_rules(out, "proposed ", relations, head.proposed.as_slice());
    add_unknowns(out, head.unknowns.as_slice());
    add_base(out, relations, head.base.as_slice());
    for waiting in head.waiting.iter() {
        add_waiting(out, relations, waiting);
    }
    out.push_str("end")
}
