//! Desks that are fed with scripts.

ghost use Rattle.std.specs.Prelude.{◌≡◌, ◌≤◌, true, IfOk, IfSome};
ghost use Rattle.std.specs.List.{list_all};
ghost use Rattle.doc_model.specs.Feeding.{is_closed_entry};
ghost use Rattle.doc_model.specs.Strokes.{entries};
ghost use Rattle.script_text.specs.Closed.{is_script};
ghost use Rattle.script_text.specs.Script.{contents};

use desk_core::Desk;
use doc_model::{Canvas, Command};
use geom_core::NoMemory;
use memento_core::Steps;
use script_text::{MakeRefusal, ReadRefusal, Script, read};
use std::alloc::Global;
use std::sync::ledger::Ledger;

/// The script of a short text. None where it is none.
pub(crate) fn script_of(alloc: Global, text: &[u8]) -> Result<Option<Script>, NoMemory> {
    if text.len() > 4096 {
        return Ok(None);
    }
    match read(alloc, text) {
        Ok(script) => Ok(Some(script)),
        Err(ReadRefusal::NoMemory) => Err(NoMemory),
        Err(ReadRefusal::Fault(_)) => Ok(None),
    }
}

/// The script of these commands. None where they are none.
pub(crate) fn made(
    alloc: Global,
    canvas: Canvas,
    commands: Vec<Command>,
) -> Result<Option<Script>, NoMemory>
    ensures made { IfOk result (λ made. IfSome made (λ s. s ≡ contents canvas commands.items)) }
    ensures script { IfOk result (λ made. IfSome made (λ s. is_script s ≡ true)) }
{
    match Script::from_commands(alloc, canvas, commands) {
        Ok(script) => Ok(Some(script)),
        Err(MakeRefusal::NoMemory) => Err(NoMemory),
        Err(MakeRefusal::NotScript) => Ok(None),
    }
}

/// A desk for the script's canvas, with that many slots.
#[tactic(auto, using(crate::proofs::Following::limits_of))]
pub(crate) fn desk_for(alloc: Global, script: &Script, slots: u8) -> Result<Desk, NoMemory>
    requires some { 1 ≤ slots }
    requires few { slots ≤ 17 }
{
    let _lawful = script.commands();
    Desk::new(alloc, script.canvas(), slots)
}

/// Feeds the next command of a desk's script. False where all are fed.
pub(crate) fn feed_next(desk: &mut Desk, script: &Script) -> Result<bool, NoMemory> {
    let count = desk.fed_count();
    if count >= script.len() || count > 4_000_000 {
        return Ok(false);
    }
    let command = script.command(count);
    if !desk.lawful(command) {
        return Ok(false);
    }
    desk.feed(command)?;
    Ok(true)
}

/// Feeds the next commands, so many or as many as there are.
pub(crate) fn feed(desk: &mut Desk, script: &Script, count: usize) -> Result<(), NoMemory> {
    for _ in 0..count {
        let _more = feed_next(desk, script)?;
    }
    Ok(())
}

/// Whether all of a script was fed to a desk.
#[tactic(auto, using(crate::proofs::Following::closed_of))]
fn is_fed(alloc: Global, desk: &Desk, script: &Script) -> Result<bool, NoMemory>
    ensures { IfOk result (λ all. all ≡ true → list_all is_closed_entry (entries desk.now.fed)
        ≡ true) }
{
    let fed = Vec::from_slice(alloc, desk.commands())?;
    match made(alloc, script.canvas(), fed)? {
        Some(fed) => Ok(fed.commands() == script.commands()),
        None => Ok(false),
    }
}

/// Feeds what is left, and settles the desk; where no memory is left it goes on once. Whether the desk has
/// settled.
pub(crate) fn settle<L: Ledger>(
    alloc: Global,
    desk: &mut Desk,
    script: &Script,
    steps: &mut Steps<L>,
) -> Result<bool, NoMemory> {
    match settle_once(alloc, desk, script, steps) {
        Ok(settled) => Ok(settled),
        Err(NoMemory) => settle_once(alloc, desk, script, steps),
    }
}

/// The same, and it doesn't go on.
fn settle_once<L: Ledger>(
    alloc: Global,
    desk: &mut Desk,
    script: &Script,
    steps: &mut Steps<L>,
) -> Result<bool, NoMemory> {
    feed(desk, script, script.len())?;
    if !is_fed(alloc, desk, script)? {
        return Ok(false);
    }
    settle_closed(desk, steps)?;
    Ok(true)
}

/// Settles a desk of which each fed stroke is closed.
fn settle_closed<L: Ledger>(desk: &mut Desk, steps: &mut Steps<L>) -> Result<(), NoMemory>
    requires { list_all is_closed_entry (entries desk.old.fed) ≡ true }
{
    desk.settle(steps)
}
