//! What a desk keeps, seen as a state of the machine.

ghost use Rattle.std.specs.Prelude.{◌≡◌, ◌≤◌, ◌<◌, ◌-◌, ◌^◌, [], true, OnOk, OnErr, IfOk, length};
ghost use Rattle.std.specs.List.{list_all};
ghost use Rattle.doc_model.specs.Canvases.{IsOfLimits};
ghost use Rattle.doc_model.specs.Feeding.{is_closed_entry};
ghost use Rattle.doc_model.specs.Lawful.{may_follow};
ghost use Rattle.doc_model.specs.Strokes.{entries};
ghost use Rattle.command_log.specs.Misfits.{jobs_misfit, misfit_of};
ghost use Rattle.machine_model.specs.State.{new_state};
ghost use Rattle.machine_model.specs.Event.{Feed};
ghost use Rattle.machine_model.specs.Step.{Step};

use command_log::{CommandLog, Commands, Misfit};
use desk_state::Work;
use desk_steps::Store;
use doc_model::{Canvas, Command};
use entry_queue::Queue;
use filmed_caches::FilmedCaches;
use geom_core::NoMemory;
use slot_core::Slots;
use std::alloc::Global;
use std::marker::Model;
use update_queue::Updates;

/// What a desk keeps: the commands that were fed, the entries that wait, the document
/// with its history, what its groups show, and what is at work.
#[derive(Drop)]
pub struct Machine {
    pub(crate) alloc: Global,
    pub(crate) canvas: Canvas,
    pub(crate) fed: CommandLog,
    pub(crate) queue: Queue,
    pub(crate) store: Store,
    pub(crate) filmed: FilmedCaches,
    pub(crate) updates: Updates,
    pub(crate) slots: Slots<Work>,
    /// How many jobs of the stroke under way were started.
    pub(crate) way: Option<u32>,
    /// The next serial.
    pub(crate) next: u64,
}

impl Model for Machine {
    ghost use Rattle.machine_model.specs.State.{State};
    ghost use Rattle.machine_model.specs.Codes.{state_code};

    ghost Value = { State };

    ghost coded = { state_code };

    ghost use Rattle.desk_state.specs.Parts.{state_of};
    ghost use Rattle.desk_state.specs.Tied.{IsDesk};
    ghost use Rattle.desk_events.specs.Kept.{parts_of};

    ghost view = { λ m. state_of (parts_of m) };

    ghost invariant = { λ m. IsDesk (parts_of m) };
}

impl Machine {
    /// A desk on which nothing was fed, with that many slots, 1 to 17.
    ///
    /// # Errors
    /// `NoMemory`.
    pub fn new(alloc: Global, canvas: Canvas, slots: u8) -> Result<Machine, NoMemory>
        requires canvas { IsOfLimits canvas }
        requires some { 1 ≤ slots }
        requires few { slots ≤ 17 }
        ensures { IfOk result (λ d. d ≡ new_state canvas slots) }
    {
        Machine::with_log(alloc, canvas, slots, CommandLog::new(alloc))
    }

    /// A desk on which nothing was fed, with that many slots, 1 to 17. As long as each command that is fed is
    /// the next one of the list, what was fed isn't kept once more.
    ///
    /// # Errors
    /// `NoMemory`.
    pub fn following(
        alloc: Global,
        canvas: Canvas,
        slots: u8,
        list: &Commands,
    ) -> Result<Machine, NoMemory>
        requires canvas { IsOfLimits canvas }
        requires some { 1 ≤ slots }
        requires few { slots ≤ 17 }
        ensures { IfOk result (λ d. d ≡ new_state canvas slots) }
    {
        let fed = CommandLog::following(alloc, list)?;
        Machine::with_log(alloc, canvas, slots, fed)
    }

    /// A desk with that many slots, and a log in which nothing stands.
    fn with_log(
        alloc: Global,
        canvas: Canvas,
        slots: u8,
        fed: CommandLog,
    ) -> Result<Machine, NoMemory>
        requires nothing { fed.items ≡ [] }
        requires canvas { IsOfLimits canvas }
        requires some { 1 ≤ slots }
        requires few { slots ≤ 17 }
        ensures { IfOk result (λ d. d ≡ new_state canvas slots) }
    {
        let store = Store::new(alloc)?;
        let filmed = FilmedCaches::new(alloc)?;
        let free = Slots::new(alloc, slots)?;
        Ok(Machine {
            alloc,
            canvas,
            fed,
            queue: Queue::new(alloc),
            store,
            filmed,
            updates: Updates::new(canvas.rect()),
            slots: free,
            way: None,
            next: 0,
        })
    }

    /// Feeds a command that may follow those that were fed.
    ///
    /// # Errors
    /// `NoMemory`; all is as it was.
    pub fn feed(&mut self, command: &Command) -> Result<(), NoMemory>
        requires lawful { may_follow (entries self.old.fed) command.now ≡ true }
        requires few { length self.old.fed < 2 ^ 32 - 1 }
        ensures ok { OnOk result (Step self.old (Feed command.now) self.new) }
        ensures err { OnErr result (self.new ≡ self.old) }
    {
        self.fed.make_room(command)?;
        self.queue.push(command)?;
        self.fed.push(*command);
        Ok(())
    }

    /// Whether the command may follow those that were fed, which `feed` asks of it. One look-up, no memory.
    pub fn lawful(&self, command: &Command) -> bool
        ensures { result ≡ may_follow (entries self.now.fed) command.now }
    {
        self.fed.may_follow(command)
    }

    /// Why the command may not follow those that were fed, its job's own limits aside. None exactly where it
    /// may, or its job's limits alone forbid it. One look-up, no memory.
    pub fn misfit(&self, command: &Command) -> Option<Misfit>
        ensures { result ≡ misfit_of (entries self.now.fed) command.now }
    {
        self.fed.misfit(command)
    }

    /// Why so many jobs can't be fed to the stroke with that number, their own limits aside. None exactly where
    /// they can. One look-up, no memory.
    pub fn jobs_misfit(&self, no: u32, count: usize) -> Option<Misfit>
        ensures { result ≡ jobs_misfit (entries self.now.fed) no count }
    {
        self.fed.jobs_misfit(no, count)
    }

    /// Whether all strokes that were fed are closed. No memory, and a look-up for each entry without outcome.
    pub fn all_closed(&self) -> bool
        ensures { result ≡ list_all is_closed_entry (entries self.now.fed) }
    {
        self.queue.all_shut()
    }
}
