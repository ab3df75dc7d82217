//! The desk.

ghost use Rattle.std.specs.Prelude.{◌≡◌, ◌≤◌, ◌<◌, ◌-◌, ◌^◌, true, OnOk, OnErr, IfOk, Ok, length};
ghost use Rattle.doc_model.specs.Canvases.{IsOfLimits};
ghost use Rattle.doc_model.specs.Lawful.{may_follow};
ghost use Rattle.doc_model.specs.Strokes.{entries};
ghost use Rattle.machine_model.specs.State.{new_state};
ghost use Rattle.machine_model.specs.SoundnessLaws.{IsNew};
ghost use Rattle.machine_model.specs.Event.{Feed, Publish};
ghost use Rattle.machine_model.specs.Step.{Step};
ghost use Rattle.desk_core.specs.declared.answers.Published.TheVariants as answers;
ghost use Rattle.desk_core.specs.declared.answers.Ended.TheVariants as ended;
ghost use Rattle.desk_state.specs.Enabled.{Takes, IsEnd, MayEnd};
ghost use Rattle.desk_core.specs.Painted.{HasJobsValue};

use crate::answers::{Ended, Published};
use crate::changes::begin_anew;
use crate::folds::Folds;
use crate::spread::Spread;
use command_log::Commands;
use desk_events::{Machine, SlotId};
use doc_model::{Canvas, Command};
use geom_core::NoMemory;
use job_core::Painted;
use std::alloc::Global;
use std::marker::Model;
use std::ops::Deref;

/// What stands behind the one lock: the commands that were fed, the entries that wait, the document
/// with its history, what its groups show, and what is at work. Beside these it keeps of each tile of
/// the canvas the part at which a group's cache may be out of date. All other points are up to date, and
/// nothing at work will change them: so a walk composes the damaged parts alone. What a machine answers
/// a desk answers too, since it reads as its machine.
#[derive(Drop)]
pub struct Desk {
    pub(crate) alloc: Global,
    pub(crate) machine: Machine,
    pub(crate) damage: Box<Spread>,
    /// Whether it is known that no job is at work, and that none has begun since the walks at work
    /// did.
    pub(crate) calm: bool,
    /// What walks have made of the children below the painted layer.
    pub(crate) folds: Box<Folds>,
}

impl Model for Desk {
    ghost use Rattle.machine_model.specs.State.{State};
    ghost use Rattle.machine_model.specs.Codes.{state_code};

    ghost Value = { State };

    ghost coded = { state_code };

    ghost use Rattle.desk_core.specs.Tracking.{Tracks};

    ghost view = { λ d. d.machine };

    ghost invariant = { λ d. Tracks d.machine d.damage.value d.calm d.folds.value };
}

/// A desk reads as its machine: what one was fed, shows and has so far is asked of `Machine`'s calls.
impl Deref for Desk {
    type Target = Machine;

    ghost deref_gives = { λ d m. m ≡ d };

    fn deref(&self) -> &Machine {
        &self.machine
    }
}

impl Desk {
    /// A desk on which nothing was fed, with that many slots.
    pub fn new(alloc: Global, canvas: Canvas, slots: u8) -> Result<Desk, NoMemory>
        requires canvas { IsOfLimits canvas }
        requires some { 1 ≤ slots }
        requires few { slots ≤ 17 }
        ensures { IfOk result (λ d. d ≡ new_state canvas slots) }
    {
        let machine = Machine::new(alloc, canvas, slots)?;
        Desk::of_new(alloc, machine)
    }

    /// A desk on which nothing was fed, which follows a list: as long as each command that is fed is the
    /// next one of it, what was fed isn't kept once more.
    pub fn following(
        alloc: Global,
        canvas: Canvas,
        slots: u8,
        list: &Commands,
    ) -> Result<Desk, NoMemory>
        requires canvas { IsOfLimits canvas }
        requires some { 1 ≤ slots }
        requires few { slots ≤ 17 }
        ensures { IfOk result (λ d. d ≡ new_state canvas slots) }
    {
        let machine = Machine::following(alloc, canvas, slots, list)?;
        Desk::of_new(alloc, machine)
    }

    /// A desk of a machine that did nothing so far.
    fn of_new(alloc: Global, machine: Machine) -> Result<Desk, NoMemory>
        requires { IsNew machine }
        ensures { IfOk result (λ d. d ≡ machine) }
    {
        let mut damage = Box::new(alloc, Spread::none())?;
        begin_anew(&machine, &mut damage);
        let kept = Folds::new(alloc);
        let folds = Box::new(alloc, kept)?;
        Ok(Desk {
            alloc,
            machine,
            damage,
            calm: false,
            folds,
        })
    }

    /// Feeds a command that may follow those that were fed, as `lawful` tells.
    ///
    /// # Errors
    /// `NoMemory`; all is as it was.
    pub fn feed(&mut self, command: &Command) -> Result<(), NoMemory>
        requires lawful { may_follow (entries self.old.fed) command.now ≡ true }
        requires few { length self.old.fed < 2 ^ 32 - 1 }
        ensures ok { OnOk result (Step self.old (Feed command.now) self.new) }
        ensures err { OnErr result (self.new ≡ self.old) }
    {
        self.machine.feed(command)
    }

    /// Lays a tile that was painted of the job in a slot on the layer of the stroke under way. `Nothing`
    /// exactly where the slot hasn't that work, the job doesn't write in the tile or has published it, or it
    /// was painted of another job or from other pixels.
    ///
    /// # Errors
    /// `NoMemory`; all is as it was.
    pub fn publish(&mut self, slot: SlotId, painted: &Painted<'_>) -> Result<Published, NoMemory>
        ensures taken { result ≡ Ok answers.Stored
            → Takes self.old slot.place slot.serial painted.now }
        ensures stored { result ≡ Ok answers.Stored
            → Step self.old (Publish slot.place painted.now.key) self.new }
        ensures value { result ≡ Ok answers.Stored → HasJobsValue self.old slot.place painted.now }
        ensures nothing { result ≡ Ok answers.Nothing → self.new ≡ self.old }
        ensures refused { result ≡ Ok answers.Nothing
            → Takes self.old slot.place slot.serial painted.now → ⊥ }
        ensures err { OnErr result (self.new ≡ self.old) }
    {
        if !self.machine.takes(slot, painted) {
            return Ok(Published::Nothing);
        }
        // What was painted has its job's value, as its key tells.
        let _key = painted.key();
        self.machine.lay(slot, painted)?;
        Ok(Published::Stored)
    }

    /// Ends the work in a slot whose tiles are all published. `Nothing` exactly where the slot hasn't that
    /// work, or some tile of it isn't published. No memory.
    pub fn end(&mut self, slot: SlotId) -> Ended
        ensures taken { result ≡ ended.Done → MayEnd self.old slot.place slot.serial }
        ensures done { result ≡ ended.Done → IsEnd self.old slot.place self.new }
        ensures nothing { result ≡ ended.Nothing → self.new ≡ self.old }
        ensures refused { result ≡ ended.Nothing → MayEnd self.old slot.place slot.serial → ⊥ }
    {
        if self.machine.is_complete(slot) {
            self.machine.end_job(slot.place);
            return Ended::Done;
        }
        if self.machine.is_walked(slot) {
            self.end_walk(slot.place);
            return Ended::Done;
        }
        Ended::Nothing
    }
}
