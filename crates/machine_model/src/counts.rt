//! How many serials are used.

ghost use Rattle.machine_model.specs.CountLaws.{SerialsAreFew, SerialsFit};

/// At most 65 serials are used for each command, and 17 more.
pub fn serials_are_few()
    ensures { SerialsAreFew }
{}

/// A serial fits into 64 bits, for up to 2 ^ 57 commands.
pub fn serials_fit()
    ensures { SerialsFit }
{}
