//! Scripts made of commands.

ghost use Rattle.std.specs.Prelude.{◌≡◌, ◌&&◌, true, false, map, IfOk, Err};
ghost use Rattle.doc_model.specs.Tracks.{point_of};
ghost use Rattle.std.specs.List.{list_all};
ghost use Rattle.doc_model.specs.Feeding.{lawful};
ghost use Rattle.script_lines.specs.Colours.{is_pixel as said_pixel};
ghost use Rattle.script_text.specs.declared.script.MakeRefusal.TheVariants.{NotScript, NoMemory};
ghost use Rattle.script_text.specs.Script.{contents};
ghost use Rattle.script_text.specs.Closed.{is_script};
ghost use Rattle.script_forms.specs.Ranges.{is_id as said_id, change_in_range, is_short, trail_in_range, job_in_range, in_range, is_sound as said_sound, in_limits};
ghost use Rattle.script_text.specs.Read.{IsGathered};

use crate::reading::Reading;
use crate::script::{MakeRefusal, ReadRefusal, Script};
use doc_model::{Canvas, Change, Command, Job, Track};
use geom_core::NoMemory;
use pixel_core::Pixel;
use std::alloc::Global;

/// Whether the bytes are all 0 where the alpha is 0.
fn is_pixel(p: Pixel) -> bool
    ensures { result ≡ said_pixel p }
{
    let [r, g, b, a] = p.bytes();
    a != 0 || (r == 0 && g == 0 && b == 0)
}

/// Whether it is a node's number.
fn is_id(id: u16) -> bool
    ensures { result ≡ said_id id }
{
    id >= 1
}

fn change_fits(change: Change) -> bool
    ensures { result ≡ change_in_range change }
{
    match change {
        Change::Layer { id, ground, .. } => is_id(id) && is_pixel(ground),
        Change::Group { id, .. } | Change::Place { id, .. } => is_id(id),
        Change::Remove { id } | Change::Look { id, .. } => is_id(id),
    }
}

/// Whether each coordinate is one that a field may tell. It is, by its type.
fn are_short(points: &[(i16, i16)]) -> bool
    ensures { result ≡ list_all is_short (map point_of points.now) }
{
    let mut fit = true;
    for i in 0..points.len() {
        let (x, y) = points[i];
        fit = fit && i32::from(x) >= -32768 && i32::from(y) >= -32768;
    }
    fit
}

fn track_fits(track: &Track) -> bool
    ensures { result ≡ trail_in_range track.now }
{
    are_short(track.points()) && is_pixel(track.stamp().colour)
}

fn job_fits(job: Job) -> bool
    ensures { result ≡ job_in_range job }
{
    match job {
        Job::Fill { colour, .. } | Job::Dab { colour, .. } => is_pixel(colour),
        Job::Move { .. } | Job::Blur { .. } => true,
        Job::Track { track, .. } => track_fits(&track),
    }
}

/// Whether each number of the command is in its range. Most can't be outside, by their types.
fn fits(command: Command) -> bool
    ensures { result ≡ in_range command }
{
    match command {
        Command::Change(change) => change_fits(change),
        Command::Stroke { layer, .. } => is_id(layer),
        Command::Add { job, .. } => job_fits(job),
        _ => true,
    }
}

/// Whether the command's job meets the limits and lies in the world.
fn is_sound(command: &Command) -> bool
    ensures { result ≡ said_sound command.now }
{
    match command {
        Command::Add { job, .. } => job.check().is_ok() && job.is_within_limits(),
        _ => true,
    }
}

fn canvas_fits(canvas: &Canvas) -> bool
    ensures { result ≡ in_limits canvas.now }
{
    let [_, _, _, a] = canvas.paper.bytes();
    let sides = canvas.w >= 1 && canvas.w <= 2048 && canvas.h >= 1 && canvas.h <= 2048;
    sides && is_pixel(canvas.paper) && a == 255
}

/// The commands, one after another.
fn gather(alloc: Global, canvas: Canvas, commands: &[Command]) -> Result<Reading, MakeRefusal>
    requires { in_limits canvas ≡ true }
    ensures ok { IfOk result (λ r. IsGathered r canvas commands.now) }
    ensures refused { result ≡ Err NotScript → (list_all in_range commands.now && lawful
        commands.now) ≡ false }
{
    let Ok(mut reading) = Reading::new(alloc, Some(canvas), commands.len()) else {
        return Err(MakeRefusal::NoMemory);
    };
    for i in 0..commands.len() {
        let command = commands[i];
        if !fits(command) {
            return Err(MakeRefusal::NotScript);
        }
        if !is_sound(&command) {
            return Err(MakeRefusal::NotScript);
        }
        match reading.add(1, command) {
            Ok(()) => {}
            Err(ReadRefusal::Fault(_)) => return Err(MakeRefusal::NotScript),
            Err(ReadRefusal::NoMemory) => return Err(MakeRefusal::NoMemory),
        }
    }
    Ok(reading)
}

impl Script {
    /// The script of a canvas and commands. `NotScript` exactly where the canvas is outside the
    /// limits, a number is outside its range, a command may not follow those before it, or a stroke
    /// is never closed.
    pub fn from_commands(
        alloc: Global,
        canvas: Canvas,
        commands: Vec<Command>,
    ) -> Result<Script, MakeRefusal>
        ensures made { IfOk result (λ s. s ≡ contents canvas commands.items) }
        ensures script { IfOk result (λ s. is_script s ≡ true) }
        ensures refused { result ≡ Err NotScript → is_script (contents canvas commands.items)
            ≡ false }
    {
        if !canvas_fits(&canvas) {
            return Err(MakeRefusal::NotScript);
        }
        let reading = gather(alloc, canvas, &commands)?;
        match reading.finish() {
            Ok(script) => Ok(script),
            Err(ReadRefusal::Fault(_)) => Err(MakeRefusal::NotScript),
            Err(ReadRefusal::NoMemory) => Err(MakeRefusal::NoMemory),
        }
    }
}
