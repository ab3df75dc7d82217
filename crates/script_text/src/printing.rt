//! The canonical text of a script.

ghost use Rattle.std.specs.Prelude.{◌≡◌, ◌++◌, ◌∷◌, [], ◌<◌, OnOk, IfOk, ℕ, decimal, length, map};
ghost use Rattle.doc_model.specs.Tracks.{point_of};
ghost use Rattle.std.specs.Fmt.{signed_decimal};
ghost use Rattle.std.specs.Char.{digit_char};
ghost use Rattle.doc_model.specs.declared.tree.Change.TheVariants.{Layer, Look as ChangeLook};
ghost use Rattle.doc_model.specs.declared.job.Job.TheVariants.{Fill, Dab, Move, Blur, Track as TrackJob};
ghost use Rattle.doc_model.specs.declared.command.Command.TheVariants.{Stroke, Add};
ghost use Rattle.script_forms.specs.Texts.{kind_text as said_kind, op_text as said_op, edge_text as said_edge, seen_text as said_seen};
ghost use Rattle.script_text.specs.Text.{rgb_text, rgba_text, spaced, line, spot_fields, area_fields, ink_fields, points_fields, trail_fields, ground_fields, mark_fields, job_word as said_job_word, job_text_fields, change_text, command_text, canvas_line, text};

use crate::script::Script;
use doc_model::{Canvas, Change, Command, Job, Kind, Look, Stamp, Track};
use geom_core::{NoMemory, Rect, TileKey};
use itoa::Buffer;
use pixel_core::{Op, Pixel};
use std::alloc::Global;

/// Adds bytes at the end.
fn add(out: &mut Vec<u8>, bytes: &[u8]) -> Result<(), NoMemory>
    ensures { OnOk result (out.new.items ≡ out.old.items ++ bytes.now) }
{
    out.extend_from_slice(bytes)?;
    Ok(())
}

/// Adds a field behind a space.
pub fn add_field(out: &mut Vec<u8>, field: &[u8]) -> Result<(), NoMemory>
    ensures { OnOk result (out.new.items ≡ out.old.items ++ spaced (field.now ∷ [])) }
{
    add(out, b" ")?;
    add(out, field)
}

/// Adds a number behind a space, without leading zeros.
pub fn add_number(out: &mut Vec<u8>, n: u32) -> Result<(), NoMemory>
    ensures { OnOk result (out.new.items ≡ out.old.items ++ spaced (decimal n ∷ [])) }
{
    let mut buffer = Buffer::new();
    add_field(out, buffer.format(n).as_bytes())
}

/// Adds a number behind a space, with a minus sign where it is below 0.
pub fn add_signed(out: &mut Vec<u8>, n: i32) -> Result<(), NoMemory>
    ensures { OnOk result (out.new.items ≡ out.old.items ++ spaced (signed_decimal n ∷ [])) }
{
    let mut buffer = Buffer::new();
    add_field(out, buffer.format(n).as_bytes())
}

/// The lower-case hexadecimal digit.
fn hex_digit(n: u8) -> u8
    requires { n < 16 }
    ensures { result ≡ digit_char n }
{
    if n < 10 { b'0' + n } else { b'a' + (n - 10) }
}

fn add_rgb(out: &mut Vec<u8>, p: Pixel) -> Result<(), NoMemory>
    ensures { OnOk result (out.new.items ≡ out.old.items ++ spaced (rgb_text p ∷ [])) }
{
    let [r, g, b, _] = p.bytes();
    add_field(
        out,
        &[
            hex_digit(r / 16),
            hex_digit(r % 16),
            hex_digit(g / 16),
            hex_digit(g % 16),
            hex_digit(b / 16),
            hex_digit(b % 16),
        ],
    )
}

fn add_rgba(out: &mut Vec<u8>, p: Pixel) -> Result<(), NoMemory>
    ensures { OnOk result (out.new.items ≡ out.old.items ++ spaced (rgba_text p ∷ [])) }
{
    let [r, g, b, a] = p.bytes();
    add_field(
        out,
        &[
            hex_digit(r / 16),
            hex_digit(r % 16),
            hex_digit(g / 16),
            hex_digit(g % 16),
            hex_digit(b / 16),
            hex_digit(b % 16),
            hex_digit(a / 16),
            hex_digit(a % 16),
        ],
    )
}

fn kind_text(kind: Kind) -> &'static [u8]
    ensures { result.now ≡ said_kind kind }
{
    match kind {
        Kind::Con => b"con",
        Kind::Seq => b"seq",
        Kind::Bar => b"bar",
        Kind::Uni => b"uni",
    }
}

fn op_text(op: Op) -> &'static [u8]
    ensures { result.now ≡ said_op op }
{
    match op {
        Op::Over => b"over",
        Op::Erase => b"erase",
        Op::Multiply => b"multiply",
        Op::Screen => b"screen",
        Op::Addition => b"addition",
    }
}

fn edge_text(soft: bool) -> &'static [u8]
    ensures { result.now ≡ said_edge soft }
{
    if soft { b"soft" } else { b"hard" }
}

fn seen_text(visible: bool) -> &'static [u8]
    ensures { result.now ≡ said_seen visible }
{
    if visible { b"on" } else { b"off" }
}

fn add_spot(out: &mut Vec<u8>, id: u16, parent: u16, place: u8) -> Result<(), NoMemory>
    ensures { OnOk result (out.new.items ≡ out.old.items ++ spaced (spot_fields id parent place)) }
{
    add_number(out, id as u32)?;
    add_number(out, parent as u32)?;
    add_number(out, place as u32)
}

/// Adds the four fields of a rectangle: its left column, its top row, its width and its height.
pub fn add_area(out: &mut Vec<u8>, rect: &Rect) -> Result<(), NoMemory>
    ensures { OnOk result (out.new.items ≡ out.old.items ++ spaced (area_fields rect.now)) }
{
    add_signed(out, rect.x())?;
    add_signed(out, rect.y())?;
    add_number(out, rect.w())?;
    add_number(out, rect.h())
}

fn add_ink(out: &mut Vec<u8>, colour: Pixel, op: Op, strength: u8) -> Result<(), NoMemory>
    ensures { OnOk result (out.new.items ≡ out.old.items ++ spaced
        (ink_fields colour op strength)) }
{
    add_rgba(out, colour)?;
    add_field(out, op_text(op))?;
    add_number(out, strength as u32)
}

/// Adds a layer's default pixel, where it isn't clear.
fn add_ground(out: &mut Vec<u8>, p: Pixel) -> Result<(), NoMemory>
    ensures { OnOk result (out.new.items ≡ out.old.items ++ spaced (ground_fields p)) }
{
    if p == Pixel::CLEAR {
        Ok(())
    } else {
        add_rgba(out, p)
    }
}

/// Adds the mark of an exclusive stroke.
fn add_mark(out: &mut Vec<u8>, exclusive: bool) -> Result<(), NoMemory>
    ensures { OnOk result (out.new.items ≡ out.old.items ++ spaced (mark_fields exclusive)) }
{
    if exclusive {
        add_field(out, b"exclusive")
    } else {
        Ok(())
    }
}

fn add_tip(out: &mut Vec<u8>, x: i32, y: i32, r: u8, soft: bool) -> Result<(), NoMemory>
    ensures { OnOk result (out.new.items ≡ out.old.items ++ spaced
        (signed_decimal x ∷ signed_decimal y ∷ decimal r ∷ said_edge soft ∷ [])) }
{
    add_signed(out, x)?;
    add_signed(out, y)?;
    add_number(out, r as u32)?;
    add_field(out, edge_text(soft))
}

fn add_fill(
    out: &mut Vec<u8>,
    rect: &Rect,
    colour: Pixel,
    op: Op,
    strength: u8,
) -> Result<(), NoMemory>
    ensures { OnOk result (out.new.items ≡ out.old.items ++ spaced
        (job_text_fields (Fill rect.now colour op strength))) }
{
    add_area(out, rect)?;
    add_ink(out, colour, op, strength)
}

fn add_move(out: &mut Vec<u8>, rect: &Rect, dx: i32, dy: i32) -> Result<(), NoMemory>
    ensures { OnOk result (out.new.items ≡ out.old.items ++ spaced
        (job_text_fields (Move rect.now dx dy))) }
{
    add_area(out, rect)?;
    add_signed(out, dx)?;
    add_signed(out, dy)
}

fn add_blur(out: &mut Vec<u8>, rect: &Rect, r: u8) -> Result<(), NoMemory>
    ensures { OnOk result (out.new.items ≡ out.old.items ++ spaced
        (job_text_fields (Blur rect.now r))) }
{
    add_area(out, rect)?;
    add_number(out, r as u32)
}

#[allow(clippy::too_many_arguments)]
fn add_dab(
    out: &mut Vec<u8>,
    x: i32,
    y: i32,
    r: u8,
    soft: bool,
    colour: Pixel,
    op: Op,
    strength: u8,
) -> Result<(), NoMemory>
    ensures { OnOk result (out.new.items ≡ out.old.items ++ spaced
        (job_text_fields (Dab x y r soft colour op strength))) }
{
    add_tip(out, x, y, r, soft)?;
    add_ink(out, colour, op, strength)
}

/// Adds the fields of what each dab of a track paints.
fn add_stamp(out: &mut Vec<u8>, stamp: &Stamp) -> Result<(), NoMemory>
    ensures { OnOk result (out.new.items ≡ out.old.items ++ spaced
        ((decimal stamp.now.r ∷ said_edge stamp.now.soft ∷ []) ++ ink_fields stamp.now.colour
        stamp.now.op stamp.now.strength)) }
{
    add_number(out, stamp.r as u32)?;
    add_field(out, edge_text(stamp.soft))?;
    add_ink(out, stamp.colour, stamp.op, stamp.strength)
}

/// Adds the fields of a polyline's points.
fn add_points(out: &mut Vec<u8>, points: &[(i16, i16)]) -> Result<(), NoMemory>
    ensures { OnOk result (out.new.items ≡ out.old.items ++ spaced
        (points_fields (map point_of points.now))) }
{
    for i in 0..points.len() {
        let (x, y) = points[i];
        add_signed(out, i32::from(x))?;
        add_signed(out, i32::from(y))?;
    }
    Ok(())
}

/// Adds the fields of a track, from its radius on.
fn add_trail(out: &mut Vec<u8>, track: &Track) -> Result<(), NoMemory>
    ensures { OnOk result (out.new.items ≡ out.old.items ++ spaced (trail_fields track.now)) }
{
    add_stamp(out, &track.stamp())?;
    add_number(out, u32::from(track.gap()))?;
    add_points(out, track.points())
}

fn add_track(out: &mut Vec<u8>, track: &Track, cell: TileKey) -> Result<(), NoMemory>
    ensures { OnOk result (out.new.items ≡ out.old.items ++ spaced
        (job_text_fields (TrackJob track.now cell))) }
{
    add_signed(out, i32::from(cell.col))?;
    add_signed(out, i32::from(cell.row))?;
    add_trail(out, track)
}

/// Adds the fields of a job behind its stroke and its kind.
fn add_job(out: &mut Vec<u8>, job: &Job) -> Result<(), NoMemory>
    ensures { OnOk result (out.new.items ≡ out.old.items ++ spaced (job_text_fields job.now)) }
{
    match job {
        Job::Fill {
            rect,
            colour,
            op,
            strength,
        } => add_fill(out, rect, *colour, *op, *strength),
        Job::Dab {
            x,
            y,
            r,
            soft,
            colour,
            op,
            strength,
        } => add_dab(out, *x, *y, *r, *soft, *colour, *op, *strength),
        Job::Move { rect, dx, dy } => add_move(out, rect, *dx, *dy),
        Job::Blur { rect, r } => add_blur(out, rect, *r),
        Job::Track { track, cell } => add_track(out, track, *cell),
    }
}

fn job_word(job: &Job) -> &'static [u8]
    ensures { result.now ≡ said_job_word job.now }
{
    match job {
        Job::Fill { .. } => b"fill",
        Job::Dab { .. } => b"dab",
        Job::Move { .. } => b"move",
        Job::Blur { .. } => b"blur",
        Job::Track { .. } => b"track",
    }
}

/// Adds a line of a command word and one number.
fn add_short(out: &mut Vec<u8>, word: &[u8], n: u32) -> Result<(), NoMemory>
    ensures { OnOk result (out.new.items ≡ out.old.items ++ line word.now (decimal n ∷ [])) }
{
    add(out, word)?;
    add_number(out, n)?;
    add(out, b"\n")
}

/// Adds a line of a command word and a node's place.
fn add_placed(
    out: &mut Vec<u8>,
    word: &[u8],
    id: u16,
    parent: u16,
    place: u8,
) -> Result<(), NoMemory>
    ensures { OnOk result (out.new.items ≡ out.old.items ++ line word.now
        (spot_fields id parent place)) }
{
    add(out, word)?;
    add_spot(out, id, parent, place)?;
    add(out, b"\n")
}

fn add_layer(
    out: &mut Vec<u8>,
    id: u16,
    parent: u16,
    place: u8,
    ground: Pixel,
) -> Result<(), NoMemory>
    ensures { OnOk result (out.new.items ≡ out.old.items ++ change_text
        (Layer id parent place ground)) }
{
    add(out, b"layer")?;
    add_spot(out, id, parent, place)?;
    add_ground(out, ground)?;
    add(out, b"\n")
}

fn add_look(out: &mut Vec<u8>, id: u16, look: &Look) -> Result<(), NoMemory>
    ensures { OnOk result (out.new.items ≡ out.old.items ++ change_text (ChangeLook id look.now)) }
{
    add(out, b"look")?;
    add_number(out, id as u32)?;
    add_number(out, look.opacity as u32)?;
    add_field(out, op_text(look.op))?;
    add_field(out, seen_text(look.visible))?;
    add(out, b"\n")
}

fn add_change(out: &mut Vec<u8>, change: &Change) -> Result<(), NoMemory>
    ensures { OnOk result (out.new.items ≡ out.old.items ++ change_text change.now) }
{
    match change {
        Change::Layer {
            id,
            parent,
            place,
            ground,
        } => add_layer(out, *id, *parent, *place, *ground),
        Change::Group { id, parent, place } => add_placed(out, b"group", *id, *parent, *place),
        Change::Remove { id } => add_short(out, b"remove", *id as u32),
        Change::Place { id, parent, place } => add_placed(out, b"place", *id, *parent, *place),
        Change::Look { id, look } => add_look(out, *id, look),
    }
}

fn add_stroke(out: &mut Vec<u8>, no: u32, layer: u16, exclusive: bool) -> Result<(), NoMemory>
    ensures { OnOk result (out.new.items ≡ out.old.items ++ command_text
        (Stroke no layer exclusive)) }
{
    add(out, b"stroke")?;
    add_number(out, no)?;
    add_number(out, layer as u32)?;
    add_mark(out, exclusive)?;
    add(out, b"\n")
}

fn add_paint(out: &mut Vec<u8>, no: u32, kind: Kind, job: &Job) -> Result<(), NoMemory>
    ensures { OnOk result (out.new.items ≡ out.old.items ++ command_text (Add no kind job.now)) }
{
    add(out, job_word(job))?;
    add_number(out, no)?;
    add_field(out, kind_text(kind))?;
    add_job(out, job)?;
    add(out, b"\n")
}

/// Adds a command's line.
pub fn add_command(out: &mut Vec<u8>, command: &Command) -> Result<(), NoMemory>
    ensures { OnOk result (out.new.items ≡ out.old.items ++ command_text command.now) }
{
    match command {
        Command::Change(change) => add_change(out, change),
        Command::Stroke {
            no,
            layer,
            exclusive,
        } => add_stroke(out, *no, *layer, *exclusive),
        Command::Add { no, kind, job } => add_paint(out, *no, *kind, job),
        Command::End { no } => add_short(out, b"end", *no),
        Command::Cancel { no } => add_short(out, b"cancel", *no),
        Command::Undo => add(out, b"undo\n"),
        Command::Redo => add(out, b"redo\n"),
        Command::Purge { keep } => add_short(out, b"purge", *keep),
        Command::Export => add(out, b"export\n"),
    }
}

/// Adds the canvas's line.
pub fn add_canvas(out: &mut Vec<u8>, canvas: &Canvas) -> Result<(), NoMemory>
    ensures { OnOk result (out.new.items ≡ out.old.items ++ canvas_line canvas.now) }
{
    add(out, b"canvas")?;
    add_number(out, canvas.w as u32)?;
    add_number(out, canvas.h as u32)?;
    add_rgb(out, canvas.paper)?;
    add(out, b"\n")
}

/// The script's one canonical text: a command a line, with single spaces, numbers without leading
/// zeros and lower-case digits of colours, the paper always written, a layer's default pixel only
/// where it isn't clear.
pub fn print(alloc: Global, script: &Script) -> Result<Vec<u8>, NoMemory>
    ensures { IfOk result (λ v. v.items ≡ text script.now) }
{
    let mut out = Vec::new(alloc);
    let canvas = script.canvas();
    add_canvas(&mut out, &canvas)?;
    let commands = script.commands();
    for i in 0..commands.len() {
        add_command(&mut out, &commands[i])?;
    }
    Ok(out)
}
