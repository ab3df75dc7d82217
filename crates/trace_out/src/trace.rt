//! The whole trace.

ghost use Rattle.std.specs.Prelude.{◌≡◌, ◌≤◌, ◌<◌, ◌-◌, ◌^◌, [], true, false, IfOk, OnOk, Ok, length, slice_get, IsSomeAnd};
ghost use Rattle.std.specs.List.{list_all};
ghost use Rattle.doc_model.specs.Feeding.{is_closed_entry};
ghost use Rattle.doc_model.specs.Strokes.{entries};
ghost use Rattle.doc_model.specs.Meaning.{meaning};
ghost use Rattle.script_text.specs.Script.{meaning_of};
ghost use Rattle.machine_model.specs.State.{is_free};
ghost use Rattle.machine_model.specs.Settled.{IsSettled};
ghost use Rattle.trace_out.specs.Writing.{IsTied, Writes};
ghost use Rattle.trace_out.specs.Goes.{GoesOnWriting, SettlesWriting, MayRest};
ghost use Rattle.trace_out.specs.Traces.{IsTraceOf};

use crate::scribe::Scribe;
use crate::takes::Took;
use demo_gen::draw;
use desk_core::settled_has_meaning;
use doc_model::Outcome;
use geom_core::NoMemory;
use memento_core::Steps;
use script_text::Script;
use std::alloc::Global;
use std::marker::Brand;
use std::sync::ledger::{Blank, Ledger};

/// Makes events, either of the work at hand or taken from the desk, as draws say. `false` exactly where
/// nothing is at hand and nothing may be taken.
fn go_on<L: Ledger>(
    scribe: &mut Scribe,
    draws: &mut u64,
    steps: &mut Steps<L>,
) -> Result<bool, NoMemory>
    requires { IsTied scribe.old.held scribe.old.desk }
    ensures on { result ≡ Ok true → GoesOnWriting scribe.old.desk scribe.old.out.items scribe.new }
    ensures rests { result ≡ Ok false → MayRest scribe.old.desk }
    ensures same { result ≡ Ok false → scribe.new ≡ scribe.old }
{
    let place = draw(draws, u32::from(scribe.held.count())) as u8;
    match scribe.busy_place(place) {
        Some(place) => {
            take_or_work(scribe, place, draws, steps)?;
            Ok(true)
        }
        None => match scribe.take(steps)? {
            Took::Something => Ok(true),
            Took::Nothing => Ok(false),
            Took::Settled => Ok(false),
        },
    }
}

/// Takes something from the desk, or does some of the work at a place.
fn take_or_work<L: Ledger>(
    scribe: &mut Scribe,
    place: u8,
    draws: &mut u64,
    steps: &mut Steps<L>,
) -> Result<(), NoMemory>
    requires tied { IsTied scribe.old.held scribe.old.desk }
    requires busy { IsSomeAnd (slice_get scribe.old.desk.slots place) (λ slot. is_free slot
        ≡ false) }
    ensures { OnOk result (GoesOnWriting scribe.old.desk scribe.old.out.items scribe.new) }
{
    if draw(draws, 2) == 0 {
        return scribe.work_at(place);
    }
    match scribe.take(steps)? {
        Took::Something => Ok(()),
        Took::Nothing => scribe.work_at(place),
        Took::Settled => scribe.work_at(place),
    }
}

/// Makes events until a draw says to stop, or nothing may be done.
fn go_on_some<L: Ledger>(
    scribe: &mut Scribe,
    draws: &mut u64,
    steps: &mut Steps<L>,
) -> Result<(), NoMemory>
    requires { IsTied scribe.old.held scribe.old.desk }
    ensures { OnOk result (SettlesWriting scribe.old.desk scribe.old.out.items scribe.new) }
{
    'events: loop {
        if draw(draws, 3) == 0 {
            return Ok(());
        }
        if !go_on(scribe, draws, steps)? {
            return Ok(());
        }
    }
}

/// Feeds all commands, with some events made after each, as draws say.
fn feed_all<L: Ledger>(
    scribe: &mut Scribe,
    script: &Script,
    draws: &mut u64,
    steps: &mut Steps<L>,
) -> Result<(), NoMemory>
    requires few { length script.now.commands ≤ 2 ^ 32 - 1 }
    requires none { scribe.old.desk.fed ≡ [] }
    requires tied { IsTied scribe.old.held scribe.old.desk }
    ensures fed { OnOk result (scribe.new.desk.fed ≡ script.now.commands) }
    ensures writes { OnOk result (Writes scribe.old.desk scribe.old.out.items scribe.new.desk
        scribe.new.out.items) }
    ensures tied { OnOk result (IsTied scribe.new.held scribe.new.desk) }
{
    let commands = script.commands();
    for i in 0..commands.len() {
        scribe.feed(&commands[i])?;
        go_on_some(scribe, draws, steps)?;
    }
    Ok(())
}

/// Makes events until nothing is left to do.
fn settle<L: Ledger>(
    scribe: &mut Scribe,
    draws: &mut u64,
    steps: &mut Steps<L>,
) -> Result<(), NoMemory>
    requires tied { IsTied scribe.old.held scribe.old.desk }
    requires closed { list_all is_closed_entry (entries scribe.old.desk.fed) ≡ true }
    ensures writes { OnOk result (SettlesWriting scribe.old.desk scribe.old.out.items scribe.new) }
    ensures settled { OnOk result (IsSettled scribe.new.desk) }
{
    'events: loop {
        if !go_on(scribe, draws, steps)? {
            return Ok(());
        }
    }
}

/// A trace of a script, and the outcomes of its entries, in order.
#[derive(Drop)]
pub struct Traced {
    pub text: Vec<u8>,
    pub outcomes: Vec<Outcome>,
}

/// A trace of the script on a desk of that many slots, 1 to 17, and what the script's entries came to. Whether
/// the next command is fed, something is taken from the desk or a tile of what was taken is published is drawn,
/// so that the order is mixed; a script and a number of slots have always the same trace.
///
/// # Errors
/// `NoMemory` where no memory is left.
pub fn trace_of(alloc: Global, script: &Script, slots: u8) -> Result<Traced, NoMemory>
    requires some { 1 ≤ slots }
    requires few { slots ≤ 17 }
    requires commands { length script.now.commands ≤ 2 ^ 32 - 1 }
    ensures trace { IfOk result (λ t. IsTraceOf script.now slots t.text.items) }
    ensures outcomes { IfOk result (λ t. t.outcomes.items ≡ (meaning_of script.now).outcomes) }
{
    let traced = trace_on::<Brand>(alloc, script, slots, Blank::new(1))?;
    Ok(traced)
}

/// A trace of the script, and its outcomes, with a count of exchanged tiles on that ledger.
fn trace_on<L: Ledger>(
    alloc: Global,
    script: &Script,
    slots: u8,
    blank: Blank,
) -> Result<Traced, NoMemory>
    requires some { 1 ≤ slots }
    requires few { slots ≤ 17 }
    requires commands { length script.now.commands ≤ 2 ^ 32 - 1 }
    requires name { blank.name ≡ L.name }
    requires parts { blank.parts ≡ L.parts }
    requires blank { 0 < blank.parts }
    ensures trace { IfOk result (λ t. IsTraceOf script.now slots t.text.items) }
    ensures outcomes { IfOk result (λ t. t.outcomes.items ≡ (meaning_of script.now).outcomes) }
{
    let mut steps = Steps::<L>::new(blank);
    let _known = script.commands();
    let mut scribe = Scribe::new(alloc, script.canvas(), slots)?;
    let mut draws = 0;
    feed_all(&mut scribe, script, &mut draws, &mut steps)?;
    settle(&mut scribe, &mut draws, &mut steps)?;
    Ok(traced_of(scribe))
}

/// What was written of a desk that is settled, and what its entries came to.
fn traced_of(scribe: Scribe) -> Traced
    requires { IsSettled scribe.desk }
    ensures text { result.text.items ≡ scribe.out.items }
    ensures outcomes { result.outcomes.items ≡ (meaning scribe.desk.canvas
        (entries scribe.desk.fed)).outcomes }
{
    settled_has_meaning(&scribe.desk);
    let Scribe { desk, out, .. } = scribe;
    let (_film, outcomes) = desk.into_results();
    Traced {
        text: out,
        outcomes,
    }
}
