//! What a host says to a desk, by lines of text or by numbers, and what it is answered.
#![tactic(auto)]

mod answer;
mod laws;
mod line;
mod structs;
mod values;

pub use answer::{Answer, cause_of};
pub use laws::codes_tell_answers;
pub use line::{Line, has_more, line_of};
pub use structs::{
    StrokesBrush, StrokesCanvas, StrokesCount, StrokesOutcome, StrokesPoint, StrokesRect,
    canvas_of, canvas_within, outcome_of, rect_of,
};
pub use values::{begin, dab, stamp_of};
