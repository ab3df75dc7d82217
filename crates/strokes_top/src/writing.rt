//! Writing what is asked for of a painted script.

ghost use Rattle.std.specs.Prelude.{◌≤◌, min, max, IfOk, OnOk, OnErr, length};
ghost use Rattle.std.specs.List.{flat_map};
ghost use Rattle.std.specs.Io.KnownBytes.{Appends};
ghost use Rattle.io_edge.specs.Told.{AppendsPrefix};
ghost use Rattle.io_edge.specs.Faults.{HasCause};
ghost use Rattle.ppm_out.specs.Scenes.{scene_bytes};
ghost use Rattle.strokes_top.specs.Room.{ArePictures, HasRoom, IsShown, ShowsFor, Suffices, rows_at_once as said_rows, rows_by, rows_of as said_rows_of};
ghost use Rattle.strokes_top.specs.Output.{asked_as, output, written};

use crate::output::{Form, Output};
use crate::painting::Painting;
use doc_model::Outcome;
use frame_core::{Film, Frame};
use geom_core::TILE_SIDE;
use io_edge::{Failed, Sink, write_all};
use log_out::{write_log, write_sum};
use ppm_out::{write_frame_by, write_frames_by};
use script_text::Script;
use std::alloc::{AllocError, Global};
use std::thread::Threads;

/// The pictures that a film has.
#[derive(Clone, Copy)]
enum Pictures<'f> {
    /// None.
    None,
    /// One alone.
    One(&'f Frame),
    /// Several: a later one follows from the one before.
    Series(&'f Film),
}

/// The pictures of a film.
fn pictures_of(film: &Film) -> Pictures<'_>
    ensures { ArePictures result film.now }
{
    match film.frames() {
        [] => Pictures::None,
        [frame] => Pictures::One(frame),
        _ => Pictures::Series(film),
    }
}

/// How many rows of a picture that goes out by bands are laid at once: those of one row of tiles for each thread.
fn band_rows(rows: u16, threads: u8) -> u16
    ensures { max 1 (min rows 64) ≤ result }
{
    rows.clamp(1, TILE_SIDE as u16 * u16::from(threads.max(1)))
}

/// How many of the rows of a film's pictures are laid before they are written: all of one of them where there
/// are several, and a band of them where there is one alone.
fn rows_at_once(film: &Film, rows: u16, threads: u8) -> u16
    ensures { said_rows film.now rows ≤ result }
{
    match pictures_of(film) {
        Pictures::None => 0,
        Pictures::One(_) => band_rows(rows, threads),
        Pictures::Series(_) => rows,
    }
}

/// How many rows of pictures are laid before they are written, where an output has pictures.
fn rows_of(output: &Output, rows: u16, threads: u8) -> u16
    ensures { said_rows_of output.now rows ≤ result }
{
    match output {
        Output::Shown { form, film, .. } => match form {
            Form::Picture | Form::Live => rows_at_once(film, rows, threads),
            Form::Log | Form::Sum => 0,
        },
        Output::Traced(_) => 0,
    }
}

/// Room for what has to be kept while the output is written: for several pictures the colours of one of
/// them, for a single one those of a band of its rows for each thread, and else none.
pub(crate) fn room_for(
    alloc: Global,
    painting: &Painting,
    threads: u8,
) -> Result<Vec<u8>, AllocError>
    ensures { IfOk result (λ v. HasRoom (said_rows_of painting.now.output
        painting.now.script.canvas.h)
        painting.now.script.canvas v.items) }
{
    let canvas = painting.script.canvas();
    let rows = rows_of(&painting.output, canvas.h, threads);
    vec![in alloc; 0; 3 * (canvas.w as usize * rows as usize)]
}

/// Writes the pictures of a film, with that room. Their rows are laid by at most so many threads.
///
/// # Errors
/// `Failed` only where the sink's count of faults rose. The sink then took the first of the bytes.
fn write_pictures<R: Threads + Sync, K: Sink>(
    rt: &R,
    threads: u8,
    film: &Film,
    room: &mut [u8],
    out: &mut K,
) -> Result<(), Failed>
    requires room { Suffices film.now (length room.old) }
    ensures ok { OnOk result (Appends (K.taken out.old) (K.taken out.new)
        (flat_map scene_bytes film.now)) }
    ensures err { OnErr result (AppendsPrefix (K.taken out.old) (K.taken out.new)
        (flat_map scene_bytes film.now)) }
    ensures cause { HasCause (K.faults out.old) (K.faults out.new) result }
{
    match pictures_of(film) {
        Pictures::None => Ok(()),
        Pictures::One(frame) => write_frame_by(rt, threads, frame, room, out),
        Pictures::Series(film) => write_frames_by(rt, threads, film, room, out),
    }
}

/// Writes what a script shows, in that form and with that room. The rows of a picture are laid by at most so
/// many threads. It takes no memory but theirs.
///
/// # Errors
/// `Failed` only where the sink's count of faults rose. The sink then took the first of the bytes.
fn write_output<R: Threads + Sync, K: Sink>(
    rt: &R,
    threads: u8,
    form: Form,
    script: &Script,
    film: &Film,
    outcomes: &[Outcome],
    room: &mut [u8],
    out: &mut K,
) -> Result<(), Failed>
    requires shows { ShowsFor form script.now film.now outcomes.now }
    requires room { HasRoom (rows_by form film.now script.now.canvas.h) script.now.canvas room.old }
    ensures ok { OnOk result (Appends (K.taken out.old) (K.taken out.new)
        (output (asked_as form) script.now)) }
    ensures err { OnErr result (AppendsPrefix (K.taken out.old) (K.taken out.new)
        (output (asked_as form) script.now)) }
    ensures cause { HasCause (K.faults out.old) (K.faults out.new) result }
{
    match form {
        Form::Picture | Form::Live => write_pictures(rt, threads, film, room, out),
        Form::Log => write_log(script, outcomes, out),
        Form::Sum => write_sum(film.frames(), outcomes, out),
    }
}

/// Writes all that is to be written of a script that was painted, with that room. It takes no memory but that
/// of the threads.
///
/// # Errors
/// `Failed` only where the sink's count of faults rose. The sink then took the first of the bytes.
pub(crate) fn write_painting<R: Threads + Sync, K: Sink>(
    rt: &R,
    threads: u8,
    painting: &Painting,
    room: &mut [u8],
    out: &mut K,
) -> Result<(), Failed>
    requires shows { IsShown painting.now.output painting.now.script painting.now.outcomes.items }
    requires room { HasRoom (said_rows_of painting.now.output painting.now.script.canvas.h)
        painting.now.script.canvas room.old }
    ensures ok { OnOk result (Appends (K.taken out.old) (K.taken out.new)
        (written painting.now.output painting.now.script)) }
    ensures err { OnErr result (AppendsPrefix (K.taken out.old) (K.taken out.new)
        (written painting.now.output painting.now.script)) }
    ensures cause { HasCause (K.faults out.old) (K.faults out.new) result }
{
    match &painting.output {
        Output::Shown {
            form,
            preface,
            film,
        } => {
            write_all(out, preface)?;
            let outcomes = &painting.outcomes;
            write_output(
                rt,
                threads,
                *form,
                &painting.script,
                film,
                outcomes,
                room,
                out,
            )
        }
        Output::Traced(text) => write_all(out, text),
    }
}
