//! Entries that are no strokes.

ghost use Rattle.std.specs.Prelude.{◌≡◌, ◌+◌, Some, true, OnOk, OnErr};
ghost use Rattle.doc_model.specs.Strokes.{Changes, Undoes, Redoes, Purges, Exports};
ghost use Rattle.machine_model.specs.State.{head};
ghost use Rattle.machine_model.specs.Event.{Act};
ghost use Rattle.machine_model.specs.Step.{Step};
ghost use Rattle.desk_state.specs.Counting.{steps_of};
ghost use Rattle.desk_state.specs.Enabled.{Enabled};
ghost use Rattle.desk_state.specs.Choices.{takes_memory};

use crate::machine::Machine;
use desk_steps::TreeRefusal;
use doc_model::{Change, Command, Outcome};
use entry_queue::Entry;
use geom_core::NoMemory;
use memento_core::Steps;
use slot_work::{move_by, renew};
use std::sync::ledger::Ledger;

impl Machine {
    /// The entry at the head takes effect.
    ///
    /// # Errors
    /// `NoMemory`, only at a change or an export; all is as it was.
    pub fn act<L: Ledger>(&mut self, steps: &mut Steps<L>) -> Result<(), NoMemory>
        requires { Enabled self.old Act }
        ensures ok { OnOk result (Step self.old Act self.new) }
        ensures counts { OnOk result (steps.new ≡ steps.old + steps_of self.old Act) }
        ensures err { OnErr result (self.new ≡ self.old) }
        ensures uncounted { OnErr result (steps.new ≡ steps.old) }
        ensures takes { OnErr result (takes_memory (head self.old) Act ≡ true) }
    {
        match self.queue.head() {
            Some(Entry::Other(Command::Change(change))) => {
                let change = *change;
                self.change(&change)
            }
            Some(Entry::Other(Command::Undo)) => {
                self.undo(steps);
                Ok(())
            }
            Some(Entry::Other(Command::Redo)) => {
                self.redo(steps);
                Ok(())
            }
            Some(Entry::Other(Command::Purge { keep })) => {
                let keep = *keep;
                self.purge(keep);
                Ok(())
            }
            Some(Entry::Other(Command::Export)) => self.export(),
            _ => unreachable!(),
        }
    }

    /// Changes the tree, or refuses to.
    ///
    /// # Errors
    /// `NoMemory`; all is as it was.
    fn change(&mut self, change: &Change) -> Result<(), NoMemory>
        requires enabled { Enabled self.old Act }
        requires head { head self.old ≡ Some (Changes change.now) }
        ensures ok { OnOk result (Step self.old Act self.new) }
        ensures err { OnErr result (self.new ≡ self.old) }
    {
        match self.store.change(self.alloc, change) {
            Ok(_) => {
                let canvas = self.canvas;
                renew(&self.store, &mut self.filmed, &mut self.updates, canvas);
                self.queue.pop(Outcome::Done);
                Ok(())
            }
            Err(TreeRefusal::Tree(fault)) => {
                self.queue.pop(Outcome::Tree(fault));
                Ok(())
            }
            Err(TreeRefusal::NoMemory) => Err(NoMemory),
        }
    }

    /// Goes back to the document from before the newest change. No memory, and a step for each tile of
    /// a stroke's reach.
    fn undo<L: Ledger>(&mut self, steps: &mut Steps<L>)
        requires enabled { Enabled self.old Act }
        requires head { head self.old ≡ Some Undoes }
        ensures step { Step self.old Act self.new }
        ensures counts { steps.new ≡ steps.old + steps_of self.old Act }
    {
        match self.store.undo(steps) {
            Some(back) => {
                move_by(
                    back,
                    &self.store,
                    &mut self.filmed,
                    &mut self.updates,
                    self.canvas,
                );
                self.queue.pop(Outcome::Done);
            }
            None => self.queue.pop(Outcome::NothingToUndo),
        }
    }

    /// Takes the newest undo back. No memory, and the steps of `undo`.
    fn redo<L: Ledger>(&mut self, steps: &mut Steps<L>)
        requires enabled { Enabled self.old Act }
        requires head { head self.old ≡ Some Redoes }
        ensures step { Step self.old Act self.new }
        ensures counts { steps.new ≡ steps.old + steps_of self.old Act }
    {
        match self.store.redo(steps) {
            Some(reach) => {
                move_by(
                    reach,
                    &self.store,
                    &mut self.filmed,
                    &mut self.updates,
                    self.canvas,
                );
                self.queue.pop(Outcome::Done);
            }
            None => self.queue.pop(Outcome::NothingToRedo),
        }
    }

    /// Forgets all that can be undone but the newest `keep` changes. No memory.
    fn purge(&mut self, keep: u32)
        requires enabled { Enabled self.old Act }
        requires head { head self.old ≡ Some (Purges keep) }
        ensures { Step self.old Act self.new }
    {
        self.store.purge(keep as usize);
        self.queue.pop(Outcome::Done);
    }

    /// Takes a frame of the root's cache.
    ///
    /// # Errors
    /// `NoMemory`; all is as it was.
    fn export(&mut self) -> Result<(), NoMemory>
        requires enabled { Enabled self.old Act }
        requires head { head self.old ≡ Some Exports }
        ensures ok { OnOk result (Step self.old Act self.new) }
        ensures err { OnErr result (self.new ≡ self.old) }
    {
        self.filmed
            .take_frame(self.alloc, self.canvas, &self.store)?;
        self.queue.pop(Outcome::Done);
        Ok(())
    }
}
