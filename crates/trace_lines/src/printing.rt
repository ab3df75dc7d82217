//! The lines of a trace, printed with single spaces and numbers without leading zeros.

ghost use Rattle.std.specs.Prelude.{◌≡◌, ◌++◌, ◌∷◌, [], OnOk, decimal, codes};
ghost use Rattle.script_text.specs.Text.{spaced};
ghost use Rattle.trace_lines.specs.declared.line.Line.TheVariants as told;
ghost use Rattle.trace_lines.specs.Texts.{key_fields, walk_fields, head_text, line_text, place_line};

use crate::line::Line;
use doc_model::{Canvas, Command, Patch, Walk};
use geom_core::{NoMemory, TileKey};
use script_text::{add_area, add_canvas, add_command, add_field, add_number, add_signed};

/// Adds bytes at the end.
fn add(out: &mut Vec<u8>, bytes: &[u8]) -> Result<(), NoMemory>
    ensures { OnOk result (out.new.items ≡ out.old.items ++ bytes.now) }
{
    out.extend_from_slice(bytes)?;
    Ok(())
}

/// Adds the column and the row of a tile.
fn add_key(out: &mut Vec<u8>, key: TileKey) -> Result<(), NoMemory>
    ensures { OnOk result (out.new.items ≡ out.old.items ++ spaced (key_fields key)) }
{
    add_signed(out, i32::from(key.col))?;
    add_signed(out, i32::from(key.row))
}

/// Adds which groups are composed.
fn add_walk(out: &mut Vec<u8>, walk: Walk) -> Result<(), NoMemory>
    ensures { OnOk result (out.new.items ≡ out.old.items ++ spaced (walk_fields walk)) }
{
    match walk {
        Walk::Up(group) => {
            add_field(out, b"up")?;
            add_number(out, u32::from(group))
        }
        Walk::All => add_field(out, b"all"),
    }
}

/// Adds a line of a word and a slot's place.
fn add_place_line(out: &mut Vec<u8>, word: &[u8], place: u8) -> Result<(), NoMemory>
    ensures { OnOk result (out.new.items ≡ out.old.items ++ place_line word.now place) }
{
    add(out, word)?;
    add_number(out, u32::from(place))?;
    add(out, b"\n")
}

fn add_feed(out: &mut Vec<u8>, command: &Command) -> Result<(), NoMemory>
    ensures { OnOk result (out.new.items ≡ out.old.items ++ line_text (told.Feed command.now)) }
{
    add(out, b"feed ")?;
    add_command(out, command)
}

fn add_publish(out: &mut Vec<u8>, place: u8, key: TileKey) -> Result<(), NoMemory>
    ensures { OnOk result (out.new.items ≡ out.old.items ++ line_text (told.Publish place key)) }
{
    add(out, b"publish")?;
    add_number(out, u32::from(place))?;
    add_key(out, key)?;
    add(out, b"\n")
}

fn add_walk_line(out: &mut Vec<u8>, place: u8, patch: &Patch) -> Result<(), NoMemory>
    ensures { OnOk result (out.new.items ≡ out.old.items ++ line_text (told.Walk place patch.now)) }
{
    add(out, b"walk")?;
    add_number(out, u32::from(place))?;
    add_walk(out, patch.walk)?;
    add_area(out, &patch.rect)?;
    add(out, b"\n")
}

fn add_put(out: &mut Vec<u8>, place: u8, group: u16, key: TileKey) -> Result<(), NoMemory>
    ensures { OnOk result (out.new.items ≡ out.old.items ++ line_text (told.Put place group key)) }
{
    add(out, b"put")?;
    add_number(out, u32::from(place))?;
    add_number(out, u32::from(group))?;
    add_key(out, key)?;
    add(out, b"\n")
}

/// Adds a line of a trace. Where it never happens, nothing is added.
///
/// # Errors
/// `NoMemory`; some of its bytes may be added.
pub fn add_line(out: &mut Vec<u8>, line: &Line) -> Result<(), NoMemory>
    ensures { OnOk result (out.new.items ≡ out.old.items ++ line_text line.now) }
{
    match line {
        Line::Feed(command) => add_feed(out, command),
        Line::Outside => Ok(()),
        Line::Step => add(out, b"step\n"),
        Line::Start(place) => add_place_line(out, b"start", *place),
        Line::Publish(place, key) => add_publish(out, *place, *key),
        Line::End(place) => add_place_line(out, b"end", *place),
        Line::Walk(place, patch) => add_walk_line(out, *place, patch),
        Line::Put(place, group, key) => add_put(out, *place, *group, *key),
    }
}

/// Adds the first two lines of a trace: the number of slots and the canvas.
///
/// # Errors
/// `NoMemory`; some of its bytes may be added.
pub fn add_head(out: &mut Vec<u8>, slots: u8, canvas: &Canvas) -> Result<(), NoMemory>
    ensures { OnOk result (out.new.items ≡ out.old.items ++ head_text slots canvas.now) }
{
    add_place_line(out, b"trace", slots)?;
    add_canvas(out, canvas)
}
