//! The names of mappings in questions and causes.

use crate::spaces::Space;
use base_types::Memory;
use std::alloc::Global;
use ws_lines::Source;
use ws_print::Text;
use ws_written::Rule;

/// The number of the mapping with this name; None if there is none.
pub(crate) fn number_of(rules: &[Rule], name: &str) -> Option<u16> {
    for (place, rule) in rules.iter().enumerate() {
        if rule.name.as_str() == name {
            return u16::try_from(place).ok();
        }
    }
    None
}

/// The source with this name: `_new`, `_fix_m`, or a mapping's name. None if no mapping has the name.
pub(crate) fn source_of(rules: &[Rule], name: &str) -> Option<Source> {
    if name == "_new" {
        return Some(Source::Draw);
    }
    if let Some(fixed) = name.strip_prefix("_fix_") {
        return Some(Source::Fix(number_of(rules, fixed)?));
    }
    Some(Source::By(number_of(rules, name)?))
}

/// The name of the mapping with this number; empty if there is none.
pub(crate) fn name_of(rules: &[Rule], mapping: u16) -> &str {
    match rules.get(usize::from(mapping)) {
        Some(rule) => rule.name.as_str(),
        None => "",
    }
}

/// The name of a source: `_new`, `_fix_m`, or a mapping's name.
pub(crate) fn called(alloc: Global, rules: &[Rule], source: Source) -> Result<String, Memory> {
    Ok(match source {
        Source::Draw => String::from_str(alloc, "_new")?,
        Source::By(mapping) => String::from_str(alloc, name_of(rules, mapping))?,
        Source::Fix(mapping) => {
            let mut name = Text::from_str(alloc, "_fix_");
            name.push_str(name_of(rules, mapping));
            let name = name.done()?;
            name
        }
    })
}

impl Space {
    /// The name that answers use for the source of a question: a mapping's name, `_fix_m` in a `fix`, or `_new`.
    pub fn source_name(&self, alloc: Global, source: Source) -> Result<String, Memory> {
        called(alloc, self.rules.as_slice(), source)
    }

    /// The mapping that a question is about; in a `fix`, the mapping that is repaired.
    pub fn source_mapping(&self, source: Source) -> Option<u16> {
        match source {
            Source::By(mapping) => Some(mapping),
            Source::Fix(mapping) => Some(mapping),
            Source::Draw => None,
        }
    }
}
