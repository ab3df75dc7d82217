//! What calls answer, and the number of each answer.

ghost use Rattle.std.specs.Prelude.{◌≡◌, ◌+◌};
ghost use Rattle.script_text.specs.Reading.{cause_of as said_cause};
ghost use Rattle.host_lines.specs.Answers.{cause_number, code_of};

use command_log::Misfit;
use script_lines::Cause;

const OK: u32 = 0;

const AGAIN: u32 = 1;

const IDLE: u32 = 2;

const SETTLED: u32 = 3;

const NOTHING: u32 = 4;

const NO_MEMORY: u32 = 16;

const SHUT: u32 = 17;

const IN_USE: u32 = 18;

const UNDONE: u32 = 19;

const STRANGER: u32 = 20;

const OUTSIDE: u32 = 21;

const NO_ROOM: u32 = 22;

const FULL: u32 = 23;

const UNKNOWN_WORD: u32 = 32;

const FIELD_COUNT: u32 = 33;

const BAD_NUMBER: u32 = 34;

const OUT_OF_RANGE: u32 = 35;

const TOO_MANY_DABS: u32 = 36;

const OUT_OF_WORLD: u32 = 37;

const UNKNOWN_STROKE: u32 = 38;

const CLOSED_STROKE: u32 = 39;

const USED_AGAIN: u32 = 40;

const CANVAS_MISSING: u32 = 41;

const CANVAS_AGAIN: u32 = 42;

const TOO_MANY_JOBS: u32 = 43;

const TOO_MANY_EXPORTS: u32 = 44;

const STROKE_LEFT: u32 = 45;

const SECOND_LINE: u32 = 46;

/// What a call answers.
#[derive(Clone, Copy, Debug, PartialEq, Eq)]
pub enum Answer {
    /// It is done.
    Done,
    /// Something was done at once: ask again.
    Again,
    /// Nothing can be done before work is given back or commands are fed.
    Idle,
    /// Every entry has its outcome, and nothing is at work or waits.
    Settled,
    /// There is nothing of the kind that was asked for: no small job is next, no work is to be shared.
    Nothing,
    NoMemory,
    /// A handle of the call is shut.
    Shut,
    /// The handle that the call is to write isn't shut.
    InUse,
    /// The piece's work isn't done.
    Undone,
    /// The desk doesn't wait for this piece.
    Stranger,
    /// There is no such place.
    Outside,
    /// There is too little room for what is to be written.
    NoRoom,
    /// The desk has as many commands as it takes.
    Full,
    /// The fault of a line, or of the values that stand for one.
    Fault(Cause),
    /// There is more behind the line's end.
    SecondLine,
}

impl Answer {
    /// Its number, by which C tells it from others.
    pub fn code(self) -> u32
        ensures { result ≡ code_of self }
    {
        match self {
            Answer::Done => OK,
            Answer::Again => AGAIN,
            Answer::Idle => IDLE,
            Answer::Settled => SETTLED,
            Answer::Nothing => NOTHING,
            Answer::NoMemory => NO_MEMORY,
            Answer::Shut => SHUT,
            Answer::InUse => IN_USE,
            Answer::Undone => UNDONE,
            Answer::Stranger => STRANGER,
            Answer::Outside => OUTSIDE,
            Answer::NoRoom => NO_ROOM,
            Answer::Full => FULL,
            Answer::Fault(cause) => number_of(cause),
            Answer::SecondLine => SECOND_LINE,
        }
    }
}

/// The number of a fault's cause.
fn number_of(cause: Cause) -> u32
    ensures { result ≡ 32 + cause_number cause }
{
    match cause {
        Cause::UnknownWord => UNKNOWN_WORD,
        Cause::FieldCount => FIELD_COUNT,
        Cause::Number => BAD_NUMBER,
        Cause::Range => OUT_OF_RANGE,
        Cause::TooManyDabs => TOO_MANY_DABS,
        Cause::OutOfWorld => OUT_OF_WORLD,
        Cause::UnknownStroke => UNKNOWN_STROKE,
        Cause::ClosedStroke => CLOSED_STROKE,
        Cause::UsedAgain => USED_AGAIN,
        Cause::CanvasMissing => CANVAS_MISSING,
        Cause::CanvasAgain => CANVAS_AGAIN,
        Cause::TooManyJobs => TOO_MANY_JOBS,
        Cause::TooManyExports => TOO_MANY_EXPORTS,
        Cause::StrokeLeft => STROKE_LEFT,
    }
}

/// The cause that is told of a command that may not follow.
pub fn cause_of(misfit: Misfit) -> Cause
    ensures { result ≡ said_cause misfit }
{
    match misfit {
        Misfit::UsedAgain => Cause::UsedAgain,
        Misfit::UnknownStroke => Cause::UnknownStroke,
        Misfit::ClosedStroke => Cause::ClosedStroke,
        Misfit::TooManyJobs => Cause::TooManyJobs,
        Misfit::TooManyExports => Cause::TooManyExports,
    }
}
