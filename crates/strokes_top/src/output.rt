//! What a run writes of a painted script.

ghost use Rattle.std.specs.Prelude.{◌≡◌, IfSome, IfNone};
ghost use Rattle.strokes_top.specs.Output.{asked_as};

use crate::choice::Emit;
use frame_core::Film;

/// In which form it is written what a script shows.
#[derive(Clone, Copy)]
pub(crate) enum Form {
    /// A pixmap for each export.
    Picture,
    /// A line for each entry.
    Log,
    /// A short summary.
    Sum,
    /// A pixmap of the document that the script makes.
    Live,
}

/// The form that is asked for. None exactly where a trace is.
pub(crate) fn form_of(emit: Emit) -> Option<Form>
    ensures some { IfSome result (λ form. emit ≡ asked_as form) }
    ensures none { IfNone result (emit ≡ Emit.Trace) }
{
    match emit {
        Emit::Picture => Some(Form::Picture),
        Emit::Log => Some(Form::Log),
        Emit::Sum => Some(Form::Sum),
        Emit::Live => Some(Form::Live),
        Emit::Trace => None,
    }
}

/// What is written of a painted script.
#[derive(Drop)]
pub(crate) enum Output {
    /// What it shows, in that form, and a text before it.
    Shown {
        form: Form,
        preface: Vec<u8>,
        film: Film,
    },
    /// A trace of it.
    Traced(Vec<u8>),
}
