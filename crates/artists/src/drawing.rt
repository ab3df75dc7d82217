//! A script is drawn by artists.
ghost use Rattle.std.specs.Prelude.{◌≡◌, ◌<◌, ◌≤◌, ◌-◌, ◌^◌, length, IfOk, IfSome, OnOk};
ghost use Rattle.machine_model.specs.Settled.{IsSettled};
ghost use Rattle.artists.specs.Shares.{IsShared};

use crate::gathering::gather;
use crate::sending::{Sender, send_together};
use crew_run::run_crew;
use desk_core::Desk;
use geom_core::NoMemory;
use io_edge::Gate;
use memento_core::Steps;
use script_text::{MakeRefusal, Script};
use std::alloc::Global;
use std::marker::Brand;
use std::sync::Wait;
use std::sync::ledger::{Blank, Ledger};
use std::thread::Threads;
use studio::Studio;

/// A script, and its settled desk.
#[derive(Drop)]
pub struct Drawn {
    pub script: Script,
    pub desk: Desk,
}

/// The desk that artists fed from threads of their own. None where some command wasn't accepted.
fn feed_together<R: Threads + Wait + Sync, G: Gate>(
    rt: &R,
    alloc: Global,
    script: &Script,
    artists: u8,
    gate: &G,
) -> Result<Option<Desk>, NoMemory>
    requires some { 1 ≤ artists }
    requires few { artists ≤ 16 }
    ensures canvas { IfOk result (λ r. IfSome r (λ d. d.canvas ≡ script.now.canvas)) }
    ensures shared { IfOk result (λ r. IfSome r (λ d.
        IsShared artists script.now.commands d.fed)) }
{
    let commands = script.commands();
    let (studio, passes) = Studio::new(alloc, script.canvas(), 1, artists)?;
    let senders = send_together(rt, &studio, passes, artists, commands, gate)?;
    let Some(last) = gather(&studio, senders) else {
        return Ok(None);
    };
    let Sender { pass, done } = last;
    if !done {
        return Ok(None);
    }
    Ok(Some(studio.close(pass).desk))
}

/// Settles a desk whose commands are a script.
fn settle<L: Ledger>(desk: &mut Desk, script: &Script, blank: Blank) -> Result<(), NoMemory>
    requires name { blank.name ≡ L.name }
    requires parts { blank.parts ≡ L.parts }
    requires some { 0 < blank.parts }
    requires fed { desk.old.fed ≡ script.now.commands }
    ensures settled { OnOk result (IsSettled desk.new) }
    ensures canvas { desk.new.canvas ≡ desk.old.canvas }
    ensures fed { desk.new.fed ≡ desk.old.fed }
{
    let _closed = script.commands();
    desk.settle(&mut Steps::<L>::new(blank))
}

/// The script that a desk was fed, with the desk, which is settled. None where its commands aren't a script.
fn settled(alloc: Global, desk: Desk) -> Result<Option<Drawn>, NoMemory>
    ensures settled { IfOk result (λ r. IfSome r (λ d. IsSettled d.desk)) }
    ensures canvas { IfOk result (λ r. IfSome r (λ d.
        (d.desk.canvas ≡ desk.canvas) × (d.script.canvas ≡ desk.canvas))) }
    ensures fed { IfOk result (λ r. IfSome r (λ d.
        (d.desk.fed ≡ desk.fed) × (d.script.commands ≡ desk.fed))) }
{
    let mut desk = desk;
    let commands = Vec::from_slice(alloc, desk.commands())?;
    match Script::from_commands(alloc, desk.canvas(), commands) {
        Ok(script) => {
            settle::<Brand>(&mut desk, &script, Blank::new(1))?;
            Ok(Some(Drawn { script, desk }))
        }
        Err(MakeRefusal::NotScript) => Ok(None),
        Err(MakeRefusal::NoMemory) => Err(NoMemory),
    }
}

/// Artists send the commands of a script, each its own from a thread of its own where one can be made: the
/// commands of stroke S are of artist S mod their number, all others of artist 0. What comes of it is a script
/// too, and its desk, settled. Where some command couldn't be taken, a crew of so many workers and the caller
/// paints the script as it is. What is promised holds if it returns.
///
/// # Errors
/// `NoMemory`.
pub fn paint_together<R: Threads + Wait + Sync, G: Gate>(
    rt: &R,
    alloc: Global,
    script: Script,
    artists: u8,
    workers: u8,
    gate: &G,
) -> Result<Drawn, NoMemory>
    requires some { 1 ≤ artists }
    requires artists { artists ≤ 16 }
    requires workers { workers ≤ 16 }
    requires few { length script.commands ≤ 2 ^ 32 - 1 }
    ensures canvas { IfOk result (λ d. d.script.canvas ≡ script.canvas) }
    ensures shared { IfOk result (λ d. IsShared artists script.commands d.script.commands) }
    ensures settled { IfOk result (λ d. IsSettled d.desk) }
    ensures desk { IfOk result (λ d.
        (d.desk.canvas ≡ d.script.canvas) × (d.desk.fed ≡ d.script.commands)) }
{
    if let Some(desk) = feed_together(rt, alloc, &script, artists, gate)? {
        if let Some(drawn) = settled(alloc, desk)? {
            return Ok(drawn);
        }
    }
    let desk = run_crew(rt, alloc, &script, workers, gate)?;
    Ok(Drawn { script, desk })
}
