//! What can be wrong with a line.

ghost use Rattle.std.specs.Prelude.{◌≡◌};
ghost use Rattle.script_lines.specs.Values.{text as text_of};

/// What is wrong with a line of a script.
#[derive(Clone, Copy, Debug, PartialEq, Eq)]
pub enum Cause {
    /// A field isn't one of the words that may stand there.
    UnknownWord,
    /// The line has fewer or more fields than any of its forms.
    FieldCount,
    /// A field isn't spelled as a number or a colour.
    Number,
    /// A number is outside its range.
    Range,
    /// A track has more than 4,096 dabs.
    TooManyDabs,
    /// A job reads or writes outside the world.
    OutOfWorld,
    /// No stroke has that number.
    UnknownStroke,
    /// The stroke was closed before.
    ClosedStroke,
    /// An earlier stroke has that number.
    UsedAgain,
    /// The first command isn't the canvas.
    CanvasMissing,
    /// There is more than one canvas.
    CanvasAgain,
    /// The stroke has 4,096 jobs already.
    TooManyJobs,
    /// There are 64 exports already.
    TooManyExports,
    /// The stroke is never closed.
    StrokeLeft,
}

impl Cause {
    /// What is told to those who wrote the script.
    pub fn text(self) -> &'static str
        ensures { result.now ≡ text_of self }
    {
        match self {
            Cause::UnknownWord => "unknown word",
            Cause::FieldCount => "wrong number of fields",
            Cause::Number => "bad number",
            Cause::Range => "out of range",
            Cause::TooManyDabs => "too many dabs",
            Cause::OutOfWorld => "out of world",
            Cause::UnknownStroke => "unknown stroke",
            Cause::ClosedStroke => "closed stroke",
            Cause::UsedAgain => "stroke number used again",
            Cause::CanvasMissing => "canvas missing",
            Cause::CanvasAgain => "canvas repeated",
            Cause::TooManyJobs => "too many jobs",
            Cause::TooManyExports => "too many exports",
            Cause::StrokeLeft => "stroke left open",
        }
    }
}
