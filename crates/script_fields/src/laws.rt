//! What ties the fields of lines to the reading of lines, as the contract of a function that does nothing.

ghost use Rattle.script_fields.specs.Laws.{FailsAtItsField};

/// Reading a line fails for the fault of the first field that isn't of its sort, or for a cause of the whole line.
pub fn fails_at_its_field()
    ensures { FailsAtItsField }
{}
