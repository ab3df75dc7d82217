//! Feeding a script to a desk.

ghost use Rattle.std.specs.Prelude.{◌≡◌, ◌≤◌, ◌<◌, ◌-◌, ◌^◌, length, take, OnOk};
ghost use Rattle.crew_run.specs.Front.{IsFront};
ghost use Rattle.crew_run.specs.Painted.{IsPaintedBy};
ghost use Rattle.crew_run.specs.Watched.{KeepsRoot};

use desk_core::Desk;
use doc_model::MOST_COMMANDS;
use geom_core::NoMemory;
use memento_core::Steps;
use script_text::Script;
use stamped_desk::{StampNaming, StampedDesk};
use std::sync::ledger::Ledger;

/// Feeds the next command of a script. `false` where none is left, or no memory.
#[tactic(auto, using(crate::proofs::Fronts::front_more, crate::proofs::Fronts::next_follows))]
fn feed_next<J: StampNaming>(desk: &mut StampedDesk<J>, script: &Script) -> bool
    requires front { IsFront desk.old.fed script.now.commands }
    ensures front { IsFront desk.new.fed script.now.commands }
    ensures canvas { desk.new.canvas ≡ desk.old.canvas }
    ensures root { KeepsRoot desk.old desk.new }
{
    let _lawful = script.commands();
    let count = desk.desk().fed_count();
    if count >= script.len() || count >= MOST_COMMANDS {
        return false;
    }
    desk.feed(script.command(count)).is_ok()
}

/// Feeds a script on until the entry at the head is closed, or nothing is left. `false` where no memory
/// was left.
pub(crate) fn feed_ahead<J: StampNaming>(desk: &mut StampedDesk<J>, script: &Script) -> bool
    requires front { IsFront desk.old.fed script.now.commands }
    ensures front { IsFront desk.new.fed script.now.commands }
    ensures canvas { desk.new.canvas ≡ desk.old.canvas }
    ensures root { KeepsRoot desk.old desk.new }
{
    for _ in desk.desk().fed_count()..script.len() {
        if !desk.desk().wants_commands() {
            return true;
        }
        if !feed_next(desk, script) {
            return false;
        }
    }
    true
}

/// Feeds what is left of a script, and does all of it on the caller's thread.
///
/// # Errors
/// `NoMemory`.
#[tactic(auto, using(crate::proofs::Fronts::one_more, std::proofs::lemmas::List::take_all, crate::proofs::Fronts::next_follows))]
pub(crate) fn finish<L: Ledger>(
    desk: &mut Desk,
    script: &Script,
    steps: &mut Steps<L>,
) -> Result<(), NoMemory>
    requires canvas { desk.old.canvas ≡ script.now.canvas }
    requires front { IsFront desk.old.fed script.now.commands }
    requires few { length script.now.commands ≤ 2 ^ 32 - 1 }
    ensures { OnOk result (IsPaintedBy script.now desk.new) }
{
    let _lawful = script.commands();
    for i in desk.fed_count()..script.len() {
        desk.feed(script.command(i))?;
    }
    desk.settle(steps)
}
