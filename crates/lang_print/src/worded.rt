//! Things that stand on a line as words, and lists of them with commas between.

ghost use Rattle.std.specs.Prelude.{◌≡◌, ◌∷◌, [], List, IfOk, flat_map, map};
ghost use Rattle.def_language.specs.Words.{Word, comma};
ghost use Rattle.def_language.specs.Grammar.{fact_words, separated, value_word};
ghost use Rattle.def_language.specs.Printing.{written_fact};
ghost use Rattle.def_language.specs.Sessions.{RelationSchema};
ghost use Rattle.base_types.specs.Meanings.{datum_of, fact_of};
ghost use Rattle.lang_schema.specs.Pages.{with_words};

use base_types::{Memory, Tuple, Value};
use lang_schema::{Page, Schema};

/// Something that stands on a line as words, given the names of the relations.
pub trait Worded {
    ghost words: { List RelationSchema → Self → List Word };

    /// Adds the words.
    fn write(&self, page: Page, schema: &Schema) -> Result<Page, Memory>
        ensures written { IfOk result (λ p. p ≡ with_words page (words schema.now self.now)) };
}

impl Worded for Value {
    ghost words = { λ _ v. value_word (datum_of v) ∷ [] };

    fn write(&self, page: Page, _schema: &Schema) -> Result<Page, Memory> {
        page.value(self)
    }
}

impl Worded for Tuple {
    ghost words = { λ relations t. fact_words (written_fact relations (fact_of t)) };

    fn write(&self, page: Page, schema: &Schema) -> Result<Page, Memory> {
        page.tuple(schema, self)
    }
}

// Adds each item after a comma.
#[tactic(auto, using(lang_schema::proofs::Noted::fold_more))]
fn with_others<T: Worded>(mut page: Page, schema: &Schema, items: &[T]) -> Result<Page, Memory>
    ensures { IfOk result (λ p. p ≡ with_words page
        (flat_map (λ x. comma ∷ T.words schema.now x) items.now)) }
{
    for item in items {
        page = item.write(page.comma()?, schema)?;
    }
    Ok(page)
}

fn with_some<T: Worded>(
    page: Page,
    schema: &Schema,
    first: &T,
    others: &[T],
) -> Result<Page, Memory>
    ensures { IfOk result (λ p. p ≡ with_words page
        (separated (T.words schema.now) (first.now ∷ others.now))) }
{
    let page = first.write(page, schema)?;
    with_others(page, schema, others)
}

/// Adds the words of each item, with commas between.
pub fn with_separated<T: Worded>(page: Page, schema: &Schema, items: &[T]) -> Result<Page, Memory>
    ensures words { IfOk result (λ p. p ≡
        with_words page (separated (T.words schema.now) items.now)) }
{
    match items {
        [] => Ok(page),
        [first, others @ ..] => with_some(page, schema, first, others),
    }
}
