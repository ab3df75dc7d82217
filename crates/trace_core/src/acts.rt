//! Entries that are no strokes.

ghost use Rattle.std.specs.Prelude.{◌≡◌, ◌||◌, ◌&&◌, not, OnOk, take};
ghost use Rattle.doc_model.specs.Changes.{changed};
ghost use Rattle.trace_core.specs.Parts.{parts};
ghost use Rattle.trace_state.specs.Waits.{other_in};
ghost use Rattle.trace_core.specs.Moves.{Follows, may_act, reached, after_change, after_undo, after_redo, after_command, acted, stepped};

use crate::machine::OutlinedMachine;
use doc_model::{Change, Command};
use geom_core::NoMemory;
use trace_state::Reach;
use update_queue::widen;

impl OutlinedMachine {
    /// Whether the command at the head may take effect.
    fn may_act(&self, command: &Command) -> bool
        ensures { result ≡ may_act (parts self.now) command.now }
    {
        match command {
            Command::Export => self.no_walker() && self.is_clean(),
            _ => self.no_walker(),
        }
    }

    /// What a change of that reach has changed waits, where there was one.
    fn reached(&mut self, reach: Option<Reach>)
        ensures { parts self.new ≡ reached (parts self.old) reach }
    {
        match reach {
            Some(Reach::Whole) => self.updates.refresh(self.area),
            Some(Reach::Part(layer, bound)) => {
                let group = self.history.group_of(layer);
                widen(&mut self.updates, group, bound);
            }
            None => {}
        }
    }

    /// Changes the tree, or refuses to.
    fn change(&mut self, change: &Change) -> Result<(), NoMemory>
        ensures { OnOk result (parts self.new ≡ after_change (parts self.old)
            (changed (λ _. tt) change.now self.old.history.tree)) }
    {
        let reach = self.history.change(self.alloc, change)?;
        self.reached(reach);
        Ok(())
    }

    /// Goes back to the document from before the newest change.
    fn undo(&mut self) -> Result<(), NoMemory>
        ensures { OnOk result (parts self.new ≡ after_undo (parts self.old) self.old.history.past) }
    {
        let reach = self.history.undo()?;
        self.reached(reach);
        Ok(())
    }

    /// Takes the newest undo back.
    fn redo(&mut self) -> Result<(), NoMemory>
        ensures { OnOk result (parts self.new ≡ after_redo (parts self.old)
            self.old.history.future) }
    {
        let reach = self.history.redo()?;
        self.reached(reach);
        Ok(())
    }

    /// The command takes effect.
    fn obey(&mut self, command: &Command) -> Result<(), NoMemory>
        ensures { OnOk result (parts self.new ≡ after_command (parts self.old) command.now) }
    {
        match command {
            Command::Change(change) => self.change(change),
            Command::Undo => self.undo(),
            Command::Redo => self.redo(),
            Command::Purge { keep } => {
                self.history.purge(*keep as usize);
                Ok(())
            }
            _ => Ok(()),
        }
    }

    /// The entry at the head takes effect, where it is no stroke.
    fn act(&mut self) -> Result<bool, NoMemory>
        ensures { Follows result (acted (parts self.old)) (parts self.old) (parts self.new) }
    {
        let Some(command) = self.intake.other() else {
            return Ok(false);
        };
        if !self.may_act(&command) {
            return Ok(false);
        }
        self.intake.pop();
        self.obey(&command)?;
        Ok(true)
    }

    /// The stroke at the head begins, finishes or leaves nothing, or another entry takes effect.
    pub(crate) fn step(&mut self) -> Result<bool, NoMemory>
        ensures { Follows result (stepped (parts self.old)) (parts self.old) (parts self.new) }
    {
        if self.begin() {
            return Ok(true);
        }
        let finished = self.finish()?;
        if finished {
            return Ok(true);
        }
        if self.cancel() {
            return Ok(true);
        }
        self.act()
    }
}
