//! The law of lines of JSON.
ghost use Rattle.base_json.specs.Lines.{AddsValues};

/// A value is added to a line as its compact text, after a comma if one is needed.
pub fn lines_add_values()
    ensures { AddsValues }
{}
