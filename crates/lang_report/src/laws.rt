//! Laws of saved sessions.
ghost use Rattle.std.specs.Prelude.{List};
ghost use Rattle.def_chase.specs.Values.{Fact};
ghost use Rattle.lang_report.specs.Saved.{NamesKeepOrder};

/// The names in a saved base keep the order of a repository's nulls, so different nulls get different names.
pub fn names_keep_the_order()
    ensures { (facts : List Fact) → NamesKeepOrder facts }
{}
