//! Painting a script, by a crew, by artists or with a trace.

ghost use Rattle.std.specs.Prelude.{◌≡◌, ◌≤◌, length, true, Some, None, IfOk};
ghost use Rattle.script_text.specs.Text.{text};
ghost use Rattle.script_text.specs.Reading.{script as script_in};
ghost use Rattle.machine_model.specs.Settled.{IsSettled};
ghost use Rattle.script_text.specs.Script.{Contents, meaning_of};
ghost use Rattle.crew_run.specs.Shows.{Shows};
ghost use Rattle.strokes_top.specs.Room.{ShowsFor, IsShown};
ghost use Rattle.strokes_top.specs.Output.{asked_as, written};
ghost use Rattle.strokes_top.specs.Run.{IsDrawn, IsWhole, led};
ghost use Rattle.trace_out.specs.Traces.{IsTraceOf};
ghost use Rattle.strokes_top.specs.Choice.{is_fit, is_of_artists};

use crate::asked::Asked;
use crate::choice::Choice;
use crate::output::{Form, Output, form_of};
use crate::size::is_for_many;
use artists::{Drawn, paint_together};
use crew_run::{Shown, run_shown};
use desk_core::{Desk, settled_has_meaning};
use doc_model::{MOST_COMMANDS, Outcome};
use geom_core::NoMemory;
use io_edge::Gate;
use live_run::run_live_shown;
use script_text::{Script, print, printed_reads_back};
use std::alloc::Global;
use std::sync::Wait;
use std::thread::Threads;
use trace_out::{Traced, trace_of};

/// A script that was painted, what its entries came to, and what is written of it.
#[derive(Drop)]
pub(crate) struct Painting {
    pub(crate) script: Script,
    pub(crate) outcomes: Vec<Outcome>,
    pub(crate) output: Output,
    ghost meant: { outcomes.items ≡ (meaning_of script).outcomes },
}

/// How many workers are to paint the script beside the caller: as many as are asked for, or none where its jobs
/// are many and small, since the caller alone is quicker then.
fn workers_for(script: &Script, asked: u8) -> u8
    requires { asked ≤ 16 }
    ensures { result ≤ 16 }
{
    if is_for_many(script) { asked } else { 0 }
}

/// What is asked for of the script, painted by so many workers and the caller: what its exports show, or what
/// a live view shows at its end.
///
/// # Errors
/// `NoMemory`.
fn shown_by_crew<R: Threads + Wait + Sync, G: Gate>(
    rt: &R,
    alloc: Global,
    form: Form,
    script: &Script,
    workers: u8,
    gate: &G,
) -> Result<Shown, NoMemory>
    requires workers { workers ≤ 16 }
    requires few { length script.now.commands ≤ MOST_COMMANDS }
    ensures shows { IfOk result (λ s. ShowsFor form script.now s.film s.outcomes.items) }
    ensures outcomes { IfOk result (λ s. s.outcomes.items ≡ (meaning_of script.now).outcomes) }
{
    match form {
        Form::Live => run_live_shown(rt, alloc, script, workers, gate),
        Form::Picture | Form::Log | Form::Sum => run_shown(rt, alloc, script, workers, gate),
    }
}

/// The script itself, painted so.
///
/// # Errors
/// `NoMemory`.
fn painted_by_crew<R: Threads + Wait + Sync, G: Gate>(
    rt: &R,
    alloc: Global,
    form: Form,
    script: Script,
    workers: u8,
    gate: &G,
) -> Result<Painting, NoMemory>
    requires workers { workers ≤ 16 }
    requires few { length script.commands ≤ MOST_COMMANDS }
    ensures drawn { IfOk result (λ p. IsDrawn None script p.script) }
    ensures whole { IfOk result (λ p. written p.output p.script ≡
        led None (asked_as form) p.script) }
    ensures shows { IfOk result (λ p. IsShown p.output p.script p.outcomes.items) }
{
    let Shown { film, outcomes } = shown_by_crew(rt, alloc, form, &script, workers, gate)?;
    let preface = Vec::new(alloc);
    Ok(Painting {
        script,
        outcomes,
        output: Output::Shown {
            form,
            preface,
            film,
        },
    })
}

/// What a settled desk shows of its commands.
fn shown_of(desk: Desk) -> Shown
    requires { IsSettled desk }
    ensures { (script : Contents) → desk.canvas ≡ script.canvas → desk.fed ≡ script.commands →
        Shows script result.film result.outcomes.items }
{
    settled_has_meaning(&desk);
    let (film, outcomes) = desk.into_results();
    Shown { film, outcomes }
}

/// The text of a script.
///
/// # Errors
/// `NoMemory`.
fn text_of(alloc: Global, script: &Script) -> Result<Vec<u8>, NoMemory>
    ensures text { IfOk result (λ v. v.items ≡ text script.now) }
    ensures reads { script_in (text script.now) ≡ Some script.now }
{
    printed_reads_back();
    let _is_script = script.commands();
    print(alloc, script)
}

/// What so many artists draw of the script, each from a thread of its own where one can be made.
///
/// # Errors
/// `NoMemory`.
fn painted_by_artists<R: Threads + Wait + Sync, G: Gate>(
    rt: &R,
    alloc: Global,
    form: Form,
    script: Script,
    artists: u8,
    workers: u8,
    gate: &G,
) -> Result<Painting, NoMemory>
    requires form { is_of_artists (asked_as form) ≡ true }
    requires some { 1 ≤ artists }
    requires artists { artists ≤ 16 }
    requires workers { workers ≤ 16 }
    requires few { length script.commands ≤ MOST_COMMANDS }
    ensures drawn { IfOk result (λ p. IsDrawn (Some artists) script p.script) }
    ensures whole { IfOk result (λ p. written p.output p.script ≡
        led (Some artists) (asked_as form) p.script) }
    ensures shows { IfOk result (λ p. IsShown p.output p.script p.outcomes.items) }
{
    let Drawn { script, desk } = paint_together(rt, alloc, script, artists, workers, gate)?;
    let preface = text_of(alloc, &script)?;
    let Shown { film, outcomes } = shown_of(desk);
    Ok(Painting {
        script,
        outcomes,
        output: Output::Shown {
            form,
            preface,
            film,
        },
    })
}

/// A trace of the script on so many slots. Not inlined, so that the desk of a trace takes no stack where none
/// is written.
///
/// # Errors
/// `NoMemory`.
#[inline(never)]
fn traced(alloc: Global, script: Script, slots: u8) -> Result<Painting, NoMemory>
    requires some { 1 ≤ slots }
    requires slots { slots ≤ 17 }
    requires few { length script.commands ≤ MOST_COMMANDS }
    ensures drawn { IfOk result (λ p. IsDrawn None script p.script) }
    ensures trace { IfOk result (λ p. IsTraceOf p.script slots (written p.output p.script)) }
    ensures shows { IfOk result (λ p. IsShown p.output p.script p.outcomes.items) }
{
    let Traced { text, outcomes } = trace_of(alloc, &script, slots)?;
    Ok(Painting {
        script,
        outcomes,
        output: Output::Traced(text),
    })
}

/// What is asked for of the script, in that form, by as many artists as are asked for, or by a crew.
///
/// # Errors
/// `NoMemory`.
fn painted_to_show<R: Threads + Wait + Sync, G: Gate>(
    rt: &R,
    alloc: Global,
    form: Form,
    choice: &Choice,
    script: Script,
    gate: &G,
) -> Result<Painting, NoMemory>
    requires form { choice.now.emit ≡ asked_as form }
    requires fit { is_fit choice.now ≡ true }
    requires few { length script.commands ≤ MOST_COMMANDS }
    ensures drawn { IfOk result (λ p. IsDrawn choice.now.artists script p.script) }
    ensures whole { IfOk result (λ p. written p.output p.script ≡
        led choice.now.artists (asked_as form) p.script) }
    ensures shows { IfOk result (λ p. IsShown p.output p.script p.outcomes.items) }
{
    let workers = workers_for(&script, choice.workers);
    match choice.artists {
        Some(artists) => painted_by_artists(rt, alloc, form, script, artists, workers, gate),
        None => painted_by_crew(rt, alloc, form, script, workers, gate),
    }
}

/// What is asked for of the script: what it shows, or a trace of it with a slot for the caller and one for
/// each worker.
///
/// # Errors
/// `NoMemory`, also where there are more commands than a desk takes.
pub(crate) fn painted<R: Threads + Wait + Sync, G: Gate>(
    rt: &R,
    alloc: Global,
    asked: &Asked,
    script: Script,
    gate: &G,
) -> Result<Painting, NoMemory>
    ensures drawn { IfOk result (λ p. IsDrawn asked.now.choice.artists script p.script) }
    ensures whole { IfOk result (λ p. IsWhole asked.now.choice.emit asked.now.choice p.script
        (written p.output p.script)) }
    ensures shows { IfOk result (λ p. IsShown p.output p.script p.outcomes.items) }
{
    if script.len() > MOST_COMMANDS {
        return Err(NoMemory);
    }
    match form_of(asked.choice.emit) {
        Some(form) => painted_to_show(rt, alloc, form, &asked.choice, script, gate),
        None => traced(alloc, script, asked.choice.workers + 1),
    }
}
