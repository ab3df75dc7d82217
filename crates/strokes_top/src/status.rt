//! How a run ends.

ghost use Rattle.std.specs.Prelude.{◌≡◌};

use crate::source::SourceError;
use crate::transfer::ReadError;
use script_text::Cause;
use trace_core::TraceCause;

/// How a run ended.
#[derive(Clone, Copy)]
pub enum Status {
    /// The output was written, and no entry of the script was refused.
    Done,
    /// The output was written, and some entry of the script was refused.
    DoneWithRefusals,
    /// The words aren't those of the command.
    Usage,
    /// The script's first bad line, whose number counts from 1, and its cause.
    Script { line: u32, cause: Cause },
    /// Reading the script failed.
    ReadFault,
    /// Writing the output failed.
    WriteFault,
    /// Memory ran out.
    NoMemory,
    /// The script or the trace is longer than it may be.
    TooLong,
    /// The trace's first line that is refused, whose number counts from 1, and its cause.
    Trace { line: u32, cause: TraceCause },
}

impl Status {
    ghost use Rattle.strokes_top.specs.Codes.{code_of};

    /// The program's exit status.
    pub fn code(self) -> u8
        ensures { result ≡ code_of self }
    {
        match self {
            Status::Done => 0,
            Status::DoneWithRefusals => 1,
            Status::Usage => 2,
            Status::Script { .. } => 3,
            Status::ReadFault => 4,
            Status::WriteFault => 5,
            Status::NoMemory => 6,
            Status::TooLong => 7,
            Status::Trace { .. } => 8,
        }
    }
}

impl From<SourceError> for Status {
    ghost use Rattle.strokes_top.specs.Sources.{of_source};

    ghost from_gives = { λ error status. status ≡ of_source error };

    fn from(error: SourceError) -> Status {
        match error {
            SourceError::Script(fault) => Status::Script {
                line: fault.line,
                cause: fault.cause,
            },
            SourceError::Trace { line, cause } => Status::Trace { line, cause },
            SourceError::Read(ReadError::Failed) => Status::ReadFault,
            SourceError::Read(ReadError::TooLong) => Status::TooLong,
            SourceError::NoMemory => Status::NoMemory,
        }
    }
}
