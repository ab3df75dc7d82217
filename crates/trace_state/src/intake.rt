//! What was fed, and what of it waits.

ghost use Rattle.std.specs.Prelude.{◌≡◌, ◌≤◌, true, false, IfOk, Ok, All, ◌++◌, ◌∷◌, [], drop, length};
ghost use Rattle.std.specs.List.{list_all};
ghost use Rattle.doc_model.specs.Jobs.{checks};
ghost use Rattle.doc_model.specs.Lawful.{may_follow};
ghost use Rattle.doc_model.specs.Strokes.{entries};
ghost use Rattle.entry_queue.specs.Heads.{head_in, jobs_in};
ghost use Rattle.entry_queue.specs.Pushed.{pushed, may_leave};
ghost use Rattle.script_forms.specs.Ranges.{in_range};
ghost use Rattle.trace_state.specs.Waits.{other_in, is_done};

use command_log::CommandLog;
use doc_model::{Command, Job, Kind, Outcome};
use entry_queue::{Entry, HeadStroke, Queue};
use geom_core::NoMemory;
use std::alloc::Global;
use std::marker::Model;

/// The commands that were fed, each of which may follow those before it, and the entries that they made and that
/// have not left the queue.
#[derive(Drop)]
pub struct Intake {
    log: CommandLog,
    queue: Queue,
}

impl Model for Intake {
    ghost use Rattle.trace_state.specs.Taken.{Taken, IsTaken};

    ghost Value = { Taken };

    ghost view = { λ t. record { fed = t.log.items; left = t.queue.left } };

    ghost invariant = { λ t. IsTaken t.log.items t.queue };
}

impl Intake {
    /// Nothing was fed.
    pub fn new(alloc: Global) -> Intake
        ensures { result ≡ record { fed = []; left = [] } }
    {
        Intake {
            log: CommandLog::new(alloc),
            queue: Queue::new(alloc),
        }
    }

    /// Feeds a command. False where it may not follow the others.
    pub fn feed(&mut self, command: &Command) -> Result<bool, NoMemory>
        requires { in_range command.now ≡ true }
        ensures may { IfOk result (λ may. may ≡ may_follow (entries self.old.fed) command.now) }
        ensures fed { result ≡ Ok true → self.new ≡ record {
          fed = self.old.fed ++ command.now ∷ [];
          left = pushed self.old.left command.now;
        } }
        ensures same { result ≡ Ok false → self.new ≡ self.old }
    {
        if !self.log.may_follow(command) {
            return Ok(false);
        }
        self.log.make_room(command)?;
        self.queue.push(command)?;
        self.log.push(*command);
        Ok(true)
    }

    /// The stroke at the head. None exactly where none is.
    pub fn head(&self) -> Option<HeadStroke>
        ensures { result ≡ head_in self.now.left }
    {
        self.queue.head_stroke()
    }

    /// The kept jobs of the stroke at the head, or none.
    pub fn jobs(&self) -> &[(Kind, Job)]
        ensures value { result.now ≡ jobs_in self.now.left }
        ensures checked { All (λ job. checks job.1 ≡ true) result.now }
        ensures few { length result.now ≤ 4096 }
    {
        self.queue.head_jobs()
    }

    /// The entry at the head, where it is no stroke.
    pub fn other(&self) -> Option<Command>
        ensures { result ≡ other_in self.now.left }
    {
        match self.queue.head() {
            Some(Entry::Other(command)) => Some(*command),
            _ => None,
        }
    }

    /// Whether no entry is left.
    pub fn is_done(&self) -> bool
        ensures { result ≡ is_done self.now.left }
    {
        self.queue.head().is_none()
    }

    /// The entry at the head leaves the queue. Its outcome tells nothing here.
    pub fn pop(&mut self)
        requires { may_leave self.old.left ≡ true }
        ensures { self.new ≡ record self.old { left = drop 1 self.old.left } }
    {
        self.queue.pop(Outcome::Done);
    }

    /// The commands that were fed.
    pub fn commands(&self) -> &[Command]
        ensures commands { result.now ≡ self.now.fed }
        ensures ranges { list_all in_range self.now.fed ≡ true }
    {
        self.log.commands()
    }
}
