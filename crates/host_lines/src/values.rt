//! What numbers say that stand for a line.

ghost use Rattle.std.specs.Prelude.{◌≡◌, ◌≤◌, IfSome, true};
ghost use Rattle.script_lines.specs.Colours.{is_pixel};
ghost use Rattle.script_forms.specs.Ranges.{in_range, is_coordinate as in_field};
ghost use Rattle.doc_model.specs.declared.job.Job.TheVariants.{Dab};
ghost use Rattle.host_lines.specs.Values.{IsOfLimits, begin_by, colour_by, dab_by, kind_by, op_by, soft_by, stamp_by};

use crate::structs::StrokesBrush;
use doc_model::{Command, Job, Kind, Stamp};
use pixel_core::{Op, Pixel};

const CON: u32 = 0;

const SEQ: u32 = 1;

const BAR: u32 = 2;

const UNI: u32 = 3;

const OVER: u8 = 0;

const ERASE: u8 = 1;

const MULTIPLY: u8 = 2;

const SCREEN: u8 = 3;

const ADDITION: u8 = 4;

/// The kind of that number.
fn kind_of(kind: u32) -> Option<Kind>
    ensures { result ≡ kind_by kind }
{
    match kind {
        CON => Some(Kind::Con),
        SEQ => Some(Kind::Seq),
        BAR => Some(Kind::Bar),
        UNI => Some(Kind::Uni),
        _ => None,
    }
}

/// The operation of that number.
fn op_of(op: u8) -> Option<Op>
    ensures { result ≡ op_by op }
{
    match op {
        OVER => Some(Op::Over),
        ERASE => Some(Op::Erase),
        MULTIPLY => Some(Op::Multiply),
        SCREEN => Some(Op::Screen),
        ADDITION => Some(Op::Addition),
        _ => None,
    }
}

/// Whether an edge of that number is soft.
fn soft_of(soft: u8) -> Option<bool>
    ensures { result ≡ soft_by soft }
{
    match soft {
        0 => Some(false),
        1 => Some(true),
        _ => None,
    }
}

/// The pixel of a colour.
fn colour_of(colour: u32) -> Pixel
    ensures value { result ≡ colour_by colour }
    ensures pixel { is_pixel result ≡ true }
{
    let r = (colour >> 24) as u8;
    let g = (colour >> 16 & 255) as u8;
    let b = (colour >> 8 & 255) as u8;
    let a = (colour & 255) as u8;
    Pixel::new(r, g, b, a)
}

/// What a brush lays. None where one of its numbers is outside its range.
#[tactic(auto, unfolding(crate::specs::Values::stamp_by))]
pub fn stamp_of(brush: &StrokesBrush) -> Option<Stamp>
    ensures value { result ≡ stamp_by brush.now }
    ensures radius { IfSome result (λ s. s.r ≤ 128) }
    ensures pixel { IfSome result (λ s. is_pixel s.colour ≡ true) }
{
    if brush.radius > 128 {
        return None;
    }
    let soft = soft_of(brush.soft)?;
    let op = op_of(brush.op)?;
    Some(Stamp {
        r: brush.radius,
        soft,
        colour: colour_of(brush.colour),
        op,
        strength: brush.strength,
    })
}

/// Whether a column or a row is one that a line may tell.
fn is_coordinate(x: i32) -> bool
    ensures { result ≡ in_field x }
{
    -32768 <= x && x <= 32767
}

/// The command that begins a stroke. None where the layer is 0.
pub fn begin(no: u32, layer: u16, exclusive: bool) -> Option<Command>
    ensures value { result ≡ begin_by no layer exclusive }
    ensures ranges { IfSome result (λ c. in_range c ≡ true) }
    ensures limits { IfSome result IsOfLimits }
{
    if layer == 0 {
        return None;
    }
    Some(Command::Stroke {
        no,
        layer,
        exclusive,
    })
}

/// The command that adds a dab to a stroke. None where a number is outside its range.
#[tactic(auto, unfolding(crate::specs::Values::dab_by))]
pub fn dab(no: u32, kind: u32, x: i32, y: i32, brush: &StrokesBrush) -> Option<Command>
    ensures value { result ≡ dab_by no kind x y brush.now }
    ensures ranges { IfSome result (λ c. in_range c ≡ true) }
    ensures limits { IfSome result IsOfLimits }
{
    if !is_coordinate(x) || !is_coordinate(y) {
        return None;
    }
    let kind = kind_of(kind)?;
    let stamp = stamp_of(brush)?;
    Some(Command::Add {
        no,
        kind,
        job: dab_job(x, y, &stamp),
    })
}

/// The job of a dab.
fn dab_job(x: i32, y: i32, stamp: &Stamp) -> Job
    ensures { result
        ≡ Dab x y stamp.now.r stamp.now.soft stamp.now.colour stamp.now.op stamp.now.strength }
{
    Job::Dab {
        x,
        y,
        r: stamp.r,
        soft: stamp.soft,
        colour: stamp.colour,
        op: stamp.op,
        strength: stamp.strength,
    }
}
