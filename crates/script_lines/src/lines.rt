//! Lines of a script and their fields.

ghost use Rattle.std.specs.Prelude.{◌≡◌, ◌==◌, ◌||◌, ◌∷◌, [], ◌++◌, IfOk, OnOk};
ghost use Rattle.std.specs.List.{filter};
ghost use Rattle.script_lines.specs.Lines.{lines, is_command as starts, is_blank as blank};
ghost use Rattle.script_lines.specs.Fronts.{pointed, is_some_field, lines_behind};

use std::alloc::AllocError;

/// Whether it is a blank or a line feed.
#[inline]
fn ends_piece(b: u8) -> bool
    ensures { result ≡ (blank b || b == 10) }
{
    b == b' ' || b == b'\t' || b == b'\r' || b == b'\n'
}

/// Adds a piece between blanks, if it is a field.
fn add_piece<'a>(piece: &'a [u8], fields: &mut Vec<&'a [u8]>) -> Result<(), AllocError>
    ensures { OnOk result (pointed fields.new.items ≡ pointed fields.old.items ++ filter
        is_some_field (piece.now ∷ [])) }
{
    if !piece.is_empty() {
        fields.push(piece)?;
    }
    Ok(())
}

/// Replaces what the list holds by the fields of the first line, so that one list serves all lines,
/// and gives what stands behind its line feed. None where it has no line feed.
pub fn next_fields<'a>(
    bytes: &'a [u8],
    fields: &mut Vec<&'a [u8]>,
) -> Result<Option<&'a [u8]>, AllocError>
    ensures { IfOk result (λ behind. lines bytes.now ≡ pointed fields.new.items ∷ lines_behind
        behind) }
{
    fields.clear();
    let mut start = 0;
    for i in 0..bytes.len() {
        let byte = bytes[i];
        if ends_piece(byte) {
            add_piece(&bytes[start..i], fields)?;
            start = i + 1;
            if byte == b'\n' {
                let (_, behind) = bytes.split_at(start);
                return Ok(Some(behind));
            }
        }
    }
    add_piece(&bytes[start..], fields)?;
    Ok(None)
}

/// Whether the fields of a line are those of a command.
pub fn is_command(fields: &[&[u8]]) -> bool
    ensures { result ≡ starts (pointed fields.now) }
{
    match fields {
        [] => false,
        [first, ..] => match *first {
            [] => false,
            [b, ..] => *b != b'#',
        },
    }
}
