//! What each line of a trace says by itself.

ghost use Rattle.std.specs.Prelude.{◌≡◌, ◌≤◌, ℕ, true, codes, IfOk, Ok, Err, Result, ◌&&◌, if◌then◌else◌};
ghost use Rattle.geom_core.specs.Areas.{lies_in, world};
ghost use Rattle.geom_core.specs.Keys.{IsWorldKey};
ghost use Rattle.script_lines.specs.Fronts.{pointed};
ghost use Rattle.script_forms.specs.Ranges.{in_limits};
ghost use Rattle.trace_lines.specs.Forms.{feed as told_feed, step as told_step, start as told_start, publish as told_publish, publish_at as told_publish_at, put_at as told_put_at, end as told_end, word as told_word, walk_of as told_walk, walk_up as told_up, walk_all as told_all, walks as told_walks, put as told_put, line_by as told_by, line_of as told_line, slots as told_slots, canvas_line as told_canvas, place as told_place};
ghost use Rattle.trace_lines.specs.Fits.{Fits};
ghost use Rattle.script_forms.specs.Jobs.{cell_at as told_cell, area_of};

use crate::line::Line;
use doc_model::{Canvas, Patch, Walk};
use geom_core::{Rect, TileKey};
use script_forms::{canvas, command_of, is, word_of};
use script_lines::{Cause, natural, number_in};

/// The place of a slot.
fn place(field: &[u8]) -> Result<u8, Cause>
    ensures { result ≡ told_place field.now }
{
    Ok(natural(0, 16, field)? as u8)
}

/// A tile of the world.
#[tactic(auto, unfolding(script_forms::specs::Jobs::cell_at))]
fn cell(col: &[u8], row: &[u8]) -> Result<TileKey, Cause>
    ensures value { result ≡ told_cell col.now row.now }
    ensures world { IfOk result IsWorldKey }
{
    let col = number_in(-256, 255, col)? as i16;
    let row = number_in(-256, 255, row)? as i16;
    Ok(TileKey { col, row })
}

/// The word that has to stand there.
fn word(text: &[u8], field: &[u8]) -> Result<(), Cause>
    ensures { result ≡ told_word text.now field.now }
{
    if is(field, text) {
        Ok(())
    } else {
        Err(Cause::UnknownWord)
    }
}

/// A command other than the canvas and the path. A track that is too long and a job that leaves the
/// world are of their form.
#[tactic(auto, unfolding(crate::specs::Forms::feed))]
fn feed(fields: &[&[u8]]) -> Result<Line, Cause>
    ensures value { result ≡ told_feed (pointed fields.now) }
    ensures fits { IfOk result Fits }
{
    match fields {
        [] => Err(Cause::FieldCount),
        [word, others @ ..] => match word_of(word) {
            None => Err(Cause::UnknownWord),
            Some(word) => match command_of(word, others) {
                Ok(command) => Ok(Line::Feed(command)),
                Err(Cause::TooManyDabs | Cause::OutOfWorld) => Ok(Line::Outside),
                Err(cause) => Err(cause),
            },
        },
    }
}

fn step(fields: &[&[u8]]) -> Result<Line, Cause>
    ensures value { result ≡ told_step (pointed fields.now) }
    ensures fits { IfOk result Fits }
{
    match fields {
        [] => Ok(Line::Step),
        _ => Err(Cause::FieldCount),
    }
}

#[tactic(auto, unfolding(crate::specs::Forms::start))]
fn start(fields: &[&[u8]]) -> Result<Line, Cause>
    ensures value { result ≡ told_start (pointed fields.now) }
    ensures fits { IfOk result Fits }
{
    match fields {
        [at] => Ok(Line::Start(place(at)?)),
        _ => Err(Cause::FieldCount),
    }
}

#[tactic(auto, unfolding(crate::specs::Forms::publish_at))]
fn publish_at(at: &[u8], col: &[u8], row: &[u8]) -> Result<Line, Cause>
    ensures value { result ≡ told_publish_at at.now col.now row.now }
    ensures fits { IfOk result Fits }
{
    let at = place(at)?;
    let key = cell(col, row)?;
    Ok(Line::Publish(at, key))
}

#[tactic(auto, unfolding(crate::specs::Forms::publish))]
fn publish(fields: &[&[u8]]) -> Result<Line, Cause>
    ensures value { result ≡ told_publish (pointed fields.now) }
    ensures fits { IfOk result Fits }
{
    match fields {
        [at, col, row] => publish_at(at, col, row),
        _ => Err(Cause::FieldCount),
    }
}

#[tactic(auto, unfolding(crate::specs::Forms::end))]
fn end(fields: &[&[u8]]) -> Result<Line, Cause>
    ensures value { result ≡ told_end (pointed fields.now) }
    ensures fits { IfOk result Fits }
{
    match fields {
        [at] => Ok(Line::End(place(at)?)),
        _ => Err(Cause::FieldCount),
    }
}

/// The walk of a patch, where the world holds it.
fn walk(at: u8, walk: Walk, x: i32, y: i32, w: u32, h: u32) -> Line
    requires w { 1 ≤ w × w ≤ 4096 }
    requires h { 1 ≤ h × h ≤ 4096 }
    ensures value { result ≡ told_walk at walk (area_of (record { x = x; y = y; w = w; h = h })) }
    ensures fits { Fits result }
{
    match Rect::new(x, y, w, h) {
        Ok(rect) => Line::Walk(at, Patch { walk, rect }),
        Err(_) => Line::Outside,
    }
}

#[tactic(auto, unfolding(crate::specs::Forms::walk_up, script_forms::specs::Jobs::outline))]
fn walk_up(
    at: &[u8],
    mode: &[u8],
    group: &[u8],
    left: &[u8],
    top: &[u8],
    width: &[u8],
    height: &[u8],
) -> Result<Line, Cause>
    ensures value { result ≡ told_up at.now mode.now group.now left.now top.now width.now
        height.now }
    ensures fits { IfOk result Fits }
{
    let at = place(at)?;
    word(b"up", mode)?;
    let group = natural(0, 65535, group)? as u16;
    let x = number_in(-32768, 32767, left)?;
    let y = number_in(-32768, 32767, top)?;
    let w = natural(1, 4096, width)? as u32;
    let h = natural(1, 4096, height)? as u32;
    Ok(walk(at, Walk::Up(group), x, y, w, h))
}

#[tactic(auto, unfolding(crate::specs::Forms::walk_all, script_forms::specs::Jobs::outline))]
fn walk_all(
    at: &[u8],
    mode: &[u8],
    left: &[u8],
    top: &[u8],
    width: &[u8],
    height: &[u8],
) -> Result<Line, Cause>
    ensures value { result ≡ told_all at.now mode.now left.now top.now width.now height.now }
    ensures fits { IfOk result Fits }
{
    let at = place(at)?;
    word(b"all", mode)?;
    let x = number_in(-32768, 32767, left)?;
    let y = number_in(-32768, 32767, top)?;
    let w = natural(1, 4096, width)? as u32;
    let h = natural(1, 4096, height)? as u32;
    Ok(walk(at, Walk::All, x, y, w, h))
}

#[tactic(auto, unfolding(crate::specs::Forms::walks))]
fn walks(fields: &[&[u8]]) -> Result<Line, Cause>
    ensures value { result ≡ told_walks (pointed fields.now) }
    ensures fits { IfOk result Fits }
{
    match fields {
        [at, mode, group, left, top, width, height] => {
            walk_up(at, mode, group, left, top, width, height)
        }
        [at, mode, left, top, width, height] => walk_all(at, mode, left, top, width, height),
        _ => Err(Cause::FieldCount),
    }
}

#[tactic(auto, unfolding(crate::specs::Forms::put_at))]
fn put_at(at: &[u8], group: &[u8], col: &[u8], row: &[u8]) -> Result<Line, Cause>
    ensures value { result ≡ told_put_at at.now group.now col.now row.now }
    ensures fits { IfOk result Fits }
{
    let at = place(at)?;
    let group = natural(0, 65535, group)? as u16;
    let key = cell(col, row)?;
    Ok(Line::Put(at, group, key))
}

#[tactic(auto, unfolding(crate::specs::Forms::put))]
fn put(fields: &[&[u8]]) -> Result<Line, Cause>
    ensures value { result ≡ told_put (pointed fields.now) }
    ensures fits { IfOk result Fits }
{
    match fields {
        [at, group, col, row] => put_at(at, group, col, row),
        _ => Err(Cause::FieldCount),
    }
}

/// What a line says behind its word.
fn line_by(name: &[u8], others: &[&[u8]]) -> Result<Line, Cause>
    ensures value { result ≡ told_by name.now (pointed others.now) }
    ensures fits { IfOk result Fits }
{
    if is(name, b"feed") {
        feed(others)
    } else if is(name, b"step") {
        step(others)
    } else if is(name, b"start") {
        start(others)
    } else if is(name, b"publish") {
        publish(others)
    } else if is(name, b"end") {
        end(others)
    } else if is(name, b"walk") {
        walks(others)
    } else if is(name, b"put") {
        put(others)
    } else {
        Err(Cause::UnknownWord)
    }
}

/// What the fields of a line say. An error says no more than that the line is of no form.
#[tactic(auto, unfolding(crate::specs::Forms::line_of))]
pub fn line_of(fields: &[&[u8]]) -> Result<Line, Cause>
    ensures value { result ≡ told_line (pointed fields.now) }
    ensures fits { IfOk result Fits }
{
    match fields {
        [] => Err(Cause::UnknownWord),
        [name, others @ ..] => line_by(name, others),
    }
}

/// The number of slots that the first line says.
#[tactic(auto, unfolding(crate::specs::Forms::slots))]
pub fn slots(fields: &[&[u8]]) -> Result<u8, Cause>
    ensures value { result ≡ told_slots (pointed fields.now) }
    ensures some { IfOk result (λ n. 1 ≤ n) }
    ensures few { IfOk result (λ n. n ≤ 17) }
{
    match fields {
        [name, number] => {
            word(b"trace", name)?;
            let n = natural(1, 17, number)? as u8;
            Ok(n)
        }
        _ => Err(Cause::FieldCount),
    }
}

/// The canvas that the second line says.
#[tactic(auto, unfolding(crate::specs::Forms::canvas_line))]
pub fn canvas_line(fields: &[&[u8]]) -> Result<Canvas, Cause>
    ensures value { result ≡ told_canvas (pointed fields.now) }
    ensures limits { IfOk result (λ c. in_limits c ≡ true) }
{
    match fields {
        [] => Err(Cause::UnknownWord),
        [name, others @ ..] => {
            word(b"canvas", name)?;
            canvas(others)
        }
    }
}
