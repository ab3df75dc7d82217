//! What each line says by itself.

ghost use Rattle.std.specs.Prelude.{◌≡◌, [], ◌∷◌, nat_le, ◌&&◌, true, IfOk};
ghost use Rattle.script_lines.specs.Fronts.{pointed};
ghost use Rattle.script_forms.specs.Ranges.{in_limits, is_spot, in_range, is_sound};
ghost use Rattle.script_forms.specs.Forms.{sides as told_sides, canvas as told_canvas, spot as told_spot, command_of as told_command};
ghost use Rattle.script_forms.specs.Plain.{alone as told_alone};

use crate::jobs::paint;
use crate::words::{Word, exclusive_of, op_of, seen_of};
use doc_model::{Canvas, Change, Command, Look};
use pixel_core::Pixel;
use script_lines::{Cause, natural, rgb, rgba};

#[tactic(auto, unfolding(crate::specs::Forms::sides))]
fn sides(width: &[u8], height: &[u8]) -> Result<(u16, u16), Cause>
    ensures value { result ≡ told_sides width.now height.now }
    ensures w { IfOk result (λ s. (nat_le 1 s.0 && nat_le s.0 2048) ≡ true) }
    ensures h { IfOk result (λ s. (nat_le 1 s.1 && nat_le s.1 2048) ≡ true) }
{
    let w = natural(1, 2048, width)? as u16;
    let h = natural(1, 2048, height)? as u16;
    Ok((w, h))
}

#[tactic(auto, unfolding(crate::specs::Forms::canvas))]
fn white_canvas(width: &[u8], height: &[u8]) -> Result<Canvas, Cause>
    ensures value { result ≡ told_canvas (width.now ∷ height.now ∷ []) }
    ensures limits { IfOk result (λ c. in_limits c ≡ true) }
{
    let (w, h) = sides(width, height)?;
    let paper = Pixel::new(255, 255, 255, 255);
    Ok(Canvas { w, h, paper })
}

#[tactic(auto, unfolding(crate::specs::Forms::canvas))]
fn coloured_canvas(width: &[u8], height: &[u8], colour: &[u8]) -> Result<Canvas, Cause>
    ensures value { result ≡ told_canvas (width.now ∷ height.now ∷ colour.now ∷ []) }
    ensures limits { IfOk result (λ c. in_limits c ≡ true) }
{
    let (w, h) = sides(width, height)?;
    let paper = rgb(colour)?;
    Ok(Canvas { w, h, paper })
}

/// The canvas, on white paper unless its colour is told.
#[tactic(auto, unfolding(crate::specs::Forms::canvas))]
pub fn canvas(fields: &[&[u8]]) -> Result<Canvas, Cause>
    ensures value { result ≡ told_canvas (pointed fields.now) }
    ensures limits { IfOk result (λ c. in_limits c ≡ true) }
{
    match fields {
        [width, height] => white_canvas(width, height),
        [width, height, colour] => coloured_canvas(width, height, colour),
        _ => Err(Cause::FieldCount),
    }
}

/// A node, the group above it, and its place there.
#[tactic(auto, unfolding(crate::specs::Forms::spot))]
fn spot(id: &[u8], parent: &[u8], place: &[u8]) -> Result<(u16, u16, u8), Cause>
    ensures value { result ≡ told_spot id.now parent.now place.now }
    ensures ranges { IfOk result (λ s. is_spot s.0 s.1 s.2 ≡ true) }
{
    let id = natural(1, 65535, id)? as u16;
    let parent = natural(0, 65535, parent)? as u16;
    let place = natural(0, 255, place)? as u8;
    Ok((id, parent, place))
}

#[tactic(auto, unfolding(crate::specs::Forms::command_of))]
fn clear_layer(id: &[u8], parent: &[u8], place: &[u8]) -> Result<Command, Cause>
    ensures value { result ≡ told_command Word.Layer (id.now ∷ parent.now ∷ place.now ∷ []) }
    ensures ranges { IfOk result (λ c. in_range c ≡ true) }
    ensures sound { IfOk result (λ c. is_sound c ≡ true) }
{
    let (id, parent, place) = spot(id, parent, place)?;
    let ground = Pixel::CLEAR;
    Ok(Command::Change(Change::Layer {
        id,
        parent,
        place,
        ground,
    }))
}

#[tactic(auto, unfolding(crate::specs::Forms::command_of))]
fn coloured_layer(id: &[u8], parent: &[u8], place: &[u8], colour: &[u8]) -> Result<Command, Cause>
    ensures value { result ≡ told_command Word.Layer (id.now ∷ parent.now ∷ place.now ∷ colour.now ∷
        []) }
    ensures ranges { IfOk result (λ c. in_range c ≡ true) }
    ensures sound { IfOk result (λ c. is_sound c ≡ true) }
{
    let (id, parent, place) = spot(id, parent, place)?;
    let ground = rgba(colour)?;
    Ok(Command::Change(Change::Layer {
        id,
        parent,
        place,
        ground,
    }))
}

/// A paint layer, clear unless its default pixel is told.
#[tactic(auto, unfolding(crate::specs::Forms::command_of))]
fn layer(fields: &[&[u8]]) -> Result<Command, Cause>
    ensures value { result ≡ told_command Word.Layer (pointed fields.now) }
    ensures ranges { IfOk result (λ c. in_range c ≡ true) }
    ensures sound { IfOk result (λ c. is_sound c ≡ true) }
{
    match fields {
        [id, parent, place] => clear_layer(id, parent, place),
        [id, parent, place, colour] => coloured_layer(id, parent, place, colour),
        _ => Err(Cause::FieldCount),
    }
}

#[tactic(auto, unfolding(crate::specs::Forms::command_of))]
fn group(fields: &[&[u8]]) -> Result<Command, Cause>
    ensures value { result ≡ told_command Word.Group (pointed fields.now) }
    ensures ranges { IfOk result (λ c. in_range c ≡ true) }
    ensures sound { IfOk result (λ c. is_sound c ≡ true) }
{
    match fields {
        [id, parent, place] => {
            let (id, parent, place) = spot(id, parent, place)?;
            Ok(Command::Change(Change::Group { id, parent, place }))
        }
        _ => Err(Cause::FieldCount),
    }
}

#[tactic(auto, unfolding(crate::specs::Forms::command_of))]
fn remove(fields: &[&[u8]]) -> Result<Command, Cause>
    ensures value { result ≡ told_command Word.Remove (pointed fields.now) }
    ensures ranges { IfOk result (λ c. in_range c ≡ true) }
    ensures sound { IfOk result (λ c. is_sound c ≡ true) }
{
    match fields {
        [id] => {
            let id = natural(1, 65535, id)? as u16;
            Ok(Command::Change(Change::Remove { id }))
        }
        _ => Err(Cause::FieldCount),
    }
}

#[tactic(auto, unfolding(crate::specs::Forms::command_of))]
fn place(fields: &[&[u8]]) -> Result<Command, Cause>
    ensures value { result ≡ told_command Word.Place (pointed fields.now) }
    ensures ranges { IfOk result (λ c. in_range c ≡ true) }
    ensures sound { IfOk result (λ c. is_sound c ≡ true) }
{
    match fields {
        [id, parent, at] => {
            let (id, parent, place) = spot(id, parent, at)?;
            Ok(Command::Change(Change::Place { id, parent, place }))
        }
        _ => Err(Cause::FieldCount),
    }
}

#[tactic(auto, unfolding(crate::specs::Forms::command_of))]
fn look_of(id: &[u8], opacity: &[u8], operation: &[u8], seen: &[u8]) -> Result<Command, Cause>
    ensures value { result ≡ told_command Word.Look (id.now ∷ opacity.now ∷ operation.now ∷ seen.now
        ∷ []) }
    ensures ranges { IfOk result (λ c. in_range c ≡ true) }
    ensures sound { IfOk result (λ c. is_sound c ≡ true) }
{
    let id = natural(1, 65535, id)? as u16;
    let opacity = natural(0, 255, opacity)? as u8;
    let op = op_of(operation)?;
    let visible = seen_of(seen)?;
    let look = Look {
        opacity,
        op,
        visible,
    };
    Ok(Command::Change(Change::Look { id, look }))
}

#[tactic(auto, unfolding(crate::specs::Forms::command_of))]
fn look(fields: &[&[u8]]) -> Result<Command, Cause>
    ensures value { result ≡ told_command Word.Look (pointed fields.now) }
    ensures ranges { IfOk result (λ c. in_range c ≡ true) }
    ensures sound { IfOk result (λ c. is_sound c ≡ true) }
{
    match fields {
        [id, opacity, operation, seen] => look_of(id, opacity, operation, seen),
        _ => Err(Cause::FieldCount),
    }
}

#[tactic(auto, unfolding(crate::specs::Forms::command_of))]
fn shared_stroke(number: &[u8], on: &[u8]) -> Result<Command, Cause>
    ensures value { result ≡ told_command Word.Stroke (number.now ∷ on.now ∷ []) }
    ensures ranges { IfOk result (λ c. in_range c ≡ true) }
    ensures sound { IfOk result (λ c. is_sound c ≡ true) }
{
    let no = natural(0, 4294967295, number)? as u32;
    let layer = natural(1, 65535, on)? as u16;
    let exclusive = false;
    Ok(Command::Stroke {
        no,
        layer,
        exclusive,
    })
}

#[tactic(auto, unfolding(crate::specs::Forms::command_of))]
fn exclusive_stroke(number: &[u8], on: &[u8], mark: &[u8]) -> Result<Command, Cause>
    ensures value { result ≡ told_command Word.Stroke (number.now ∷ on.now ∷ mark.now ∷ []) }
    ensures ranges { IfOk result (λ c. in_range c ≡ true) }
    ensures sound { IfOk result (λ c. is_sound c ≡ true) }
{
    let no = natural(0, 4294967295, number)? as u32;
    let layer = natural(1, 65535, on)? as u16;
    let exclusive = exclusive_of(mark)?;
    Ok(Command::Stroke {
        no,
        layer,
        exclusive,
    })
}

/// The start of a stroke, exclusive where a mark says so.
#[tactic(auto, unfolding(crate::specs::Forms::command_of))]
fn stroke(fields: &[&[u8]]) -> Result<Command, Cause>
    ensures value { result ≡ told_command Word.Stroke (pointed fields.now) }
    ensures ranges { IfOk result (λ c. in_range c ≡ true) }
    ensures sound { IfOk result (λ c. is_sound c ≡ true) }
{
    match fields {
        [number, on] => shared_stroke(number, on),
        [number, on, mark] => exclusive_stroke(number, on, mark),
        _ => Err(Cause::FieldCount),
    }
}

/// The end of a stroke.
#[tactic(auto, unfolding(crate::specs::Forms::command_of))]
fn end(fields: &[&[u8]]) -> Result<Command, Cause>
    ensures value { result ≡ told_command Word.End (pointed fields.now) }
    ensures ranges { IfOk result (λ c. in_range c ≡ true) }
    ensures sound { IfOk result (λ c. is_sound c ≡ true) }
{
    match fields {
        [number] => {
            let no = natural(0, 4294967295, number)? as u32;
            Ok(Command::End { no })
        }
        _ => Err(Cause::FieldCount),
    }
}

#[tactic(auto, unfolding(crate::specs::Forms::command_of))]
fn cancel(fields: &[&[u8]]) -> Result<Command, Cause>
    ensures value { result ≡ told_command Word.Cancel (pointed fields.now) }
    ensures ranges { IfOk result (λ c. in_range c ≡ true) }
    ensures sound { IfOk result (λ c. is_sound c ≡ true) }
{
    match fields {
        [number] => {
            let no = natural(0, 4294967295, number)? as u32;
            Ok(Command::Cancel { no })
        }
        _ => Err(Cause::FieldCount),
    }
}

#[tactic(auto, unfolding(crate::specs::Forms::command_of))]
fn purge(fields: &[&[u8]]) -> Result<Command, Cause>
    ensures value { result ≡ told_command Word.Purge (pointed fields.now) }
    ensures ranges { IfOk result (λ c. in_range c ≡ true) }
    ensures sound { IfOk result (λ c. is_sound c ≡ true) }
{
    match fields {
        [number] => {
            let keep = natural(0, 4294967295, number)? as u32;
            Ok(Command::Purge { keep })
        }
        _ => Err(Cause::FieldCount),
    }
}

/// A command that is its word alone.
fn alone(command: Command, fields: &[&[u8]]) -> Result<Command, Cause>
    requires ranges { in_range command ≡ true }
    requires sound { is_sound command ≡ true }
    ensures value { result ≡ told_alone command (pointed fields.now) }
    ensures ranges { IfOk result (λ c. in_range c ≡ true) }
    ensures sound { IfOk result (λ c. is_sound c ≡ true) }
{
    if fields.is_empty() {
        Ok(command)
    } else {
        Err(Cause::FieldCount)
    }
}

/// The command of a line, behind its word.
#[tactic(auto, unfolding(crate::specs::Forms::command_of))]
pub fn command_of(word: Word, fields: &[&[u8]]) -> Result<Command, Cause>
    ensures value { result ≡ told_command word (pointed fields.now) }
    ensures ranges { IfOk result (λ c. in_range c ≡ true) }
    ensures sound { IfOk result (λ c. is_sound c ≡ true) }
{
    match word {
        Word::Layer => layer(fields),
        Word::Group => group(fields),
        Word::Remove => remove(fields),
        Word::Place => place(fields),
        Word::Look => look(fields),
        Word::Stroke => stroke(fields),
        Word::Paint(work) => paint(work, fields),
        Word::End => end(fields),
        Word::Cancel => cancel(fields),
        Word::Undo => alone(Command::Undo, fields),
        Word::Redo => alone(Command::Redo, fields),
        Word::Purge => purge(fields),
        Word::Export => alone(Command::Export, fields),
    }
}
