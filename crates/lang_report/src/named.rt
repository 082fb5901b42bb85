//! Updates and mappings by their names.

ghost use Rattle.std.specs.Prelude.{◌≡◌, ◌<◌, ◌^◌, pos, [], ◌∷◌, OnOk};
ghost use Rattle.def_language.specs.Words as word_of;
ghost use Rattle.def_language.specs.Printing.{name_of};
ghost use Rattle.def_language.specs.Sessions.{mapping_names};
ghost use Rattle.lang_report.specs.Results.{update_words};
ghost use Rattle.lang_report.specs.Pages.{HasWords, mappings_of, updates_of};

use base_types::{MappingList, Memory};
use lang_schema::Page;
use lang_session::SessionUpdates;

// Adds a number and two names.
fn add_names(page: &mut Page, number: usize, label: &[u8], curator: &[u8]) -> Result<(), Memory>
    requires { number < 2 ^ 63 }
    ensures { OnOk result (HasWords page.old (word_of.number (pos number) ∷ word_of.name label.now ∷
        word_of.name curator.now ∷ []) page.new) }
{
    page.add_number(number as i64)?;
    page.add_name(label)?;
    page.add_name(curator)
}

/// Adds an update by its number, label and curator.
pub(crate) fn add_update(
    page: &mut Page,
    updates: &SessionUpdates,
    number: usize,
) -> Result<(), Memory>
    requires { number < 2 ^ 63 }
    ensures { OnOk result (HasWords page.old
        (update_words (updates_of updates.now) number) page.new) }
{
    match updates.get(number.saturating_sub(1)) {
        Some(named) => {
            let update = &named.update;
            add_names(
                page,
                number,
                update.label.as_slice(),
                update.curator.as_slice(),
            )
        }
        None => add_names(page, number, &[], &[]),
    }
}

/// The name of the mapping of this number; the empty name if there is none.
pub(crate) fn mapping_name(mappings: &MappingList, number: u16) -> &[u8]
    ensures { result.now ≡ name_of (mapping_names (mappings_of mappings.now)) number }
{
    match mappings.get(number as usize) {
        Some(mapping) => mapping.name.as_slice(),
        None => &[],
    }
}
