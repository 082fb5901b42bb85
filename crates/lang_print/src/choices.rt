//! The words of an answer.

ghost use Rattle.std.specs.Prelude.{◌≡◌, IfOk, map};
ghost use Rattle.base_types.specs.Meanings.{choice_of, fact_of};
ghost use Rattle.def_language.specs.Grammar.{choice_words, fact_words, separated};
ghost use Rattle.def_language.specs.Printing.{written_choice, written_fact};
ghost use Rattle.lang_schema.specs.Pages.{with_words};

use crate::worded::{Worded, with_separated};
use base_types::{Choice, Memory, TupleList};
use lang_schema::{Page, Schema};

fn with_facts(page: Page, schema: &Schema, tuples: &TupleList) -> Result<Page, Memory>
    ensures { IfOk result (λ p. p ≡ with_words page
        (separated fact_words (map (written_fact schema.now) (map fact_of tuples.now.items)))) }
{
    with_separated(page, schema, tuples.as_slice())
}

/// Adds an answer as a session spells it after the label.
pub fn with_choice(page: Page, schema: &Schema, choice: &Choice) -> Result<Page, Memory>
    ensures words { IfOk result (λ p. p ≡
        with_words page (choice_words (written_choice schema.now (choice_of choice.now)))) }
{
    match choice {
        Choice::Expand => page.name(b"expand"),
        Choice::Unify(tuple) => tuple.write(page.name(b"unify")?, schema),
        Choice::Delete(tuples) => with_facts(page.name(b"delete")?, schema, tuples),
    }
}
