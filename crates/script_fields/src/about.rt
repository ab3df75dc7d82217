//! The field that an error is about.

ghost use Rattle.std.specs.Prelude.{◌≡◌, ◌+◌, ◌<◌, ◌^◌, length};
ghost use Rattle.std.specs.Option.{option_map};
ghost use Rattle.script_lines.specs.Fronts.{pointed};
ghost use Rattle.script_fields.specs.Fields.{bad_field, fault_from, field_at, number_of};

use crate::form::{form_of, sorts};
use crate::sort::{COORDINATE, Sort};
use script_lines::Cause;

/// The number, from 1, of the field of a bad line that the cause of its fault is about: that of the word or of a
/// stroke, or the first field that can't stand where it does. 0 where the cause isn't about one field.
pub fn field_of(cause: Cause, fields: &[&[u8]]) -> usize
    ensures { result ≡ field_at cause (pointed fields.now) }
{
    match cause {
        Cause::UnknownWord | Cause::Number | Cause::Range => bad_field(fields),
        Cause::UnknownStroke | Cause::ClosedStroke | Cause::UsedAgain => 2,
        Cause::CanvasMissing | Cause::CanvasAgain => 1,
        Cause::FieldCount
        | Cause::TooManyDabs
        | Cause::OutOfWorld
        | Cause::TooManyJobs
        | Cause::TooManyExports
        | Cause::StrokeLeft => 0,
    }
}

/// The number of the first field that can't stand where it does, or 0.
fn bad_field(fields: &[&[u8]]) -> usize
    ensures { result ≡ bad_field (pointed fields.now) }
{
    match fields {
        [] => 0,
        [word, others @ ..] => match form_of(word) {
            None => 1,
            Some(form) => first_fault(sorts(form), others),
        },
    }
}

/// The number of the first field behind the word that isn't of its sort, or 0.
fn first_fault(sorts: &[Sort], fields: &[&[u8]]) -> usize
    ensures { result ≡ number_of (fault_from 2 sorts.now (pointed fields.now)) }
{
    for i in 0..fields.len() {
        let sort = if i < sorts.len() {
            sorts[i]
        } else {
            COORDINATE
        };
        if sort.fault(fields[i]).is_some() {
            return i + 2;
        }
    }
    0
}
