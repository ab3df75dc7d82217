//! What a run is asked for.

ghost use Rattle.std.specs.Prelude.{◌≡◌, true};
ghost use Rattle.strokes_top.specs.Choice.{is_fit};

use crate::choice::Choice;

/// What the words ask for, which fits together.
#[derive(Clone, Copy)]
pub(crate) struct Asked {
    pub(crate) choice: Choice,
    ghost fit: { is_fit choice ≡ true },
}
