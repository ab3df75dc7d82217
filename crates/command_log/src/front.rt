//! The front of a list of commands, which may be one that others share.

ghost use Rattle.std.specs.Prelude.{◌≡◌, ◌≤◌, [], ◌∷◌, ◌++◌, Some, IsSome, IfSome, IfOk, OnOk, OnErr, take, length};
ghost use Rattle.command_log.specs.Fronts.{all};

use crate::same::stands_at;
use crate::shared::Commands;
use doc_model::Command;
use geom_core::NoMemory;
use std::alloc::Global;
use std::marker::Model;

/// A list of commands.
#[derive(Drop)]
enum Listed {
    /// Nobody else has it.
    Own(Vec<Command>),
    /// Others may share it.
    Shared(Commands),
}

impl Listed {
    /// The commands, in order.
    fn as_slice(&self) -> &[Command]
        ensures { result.now ≡ all self.now }
    {
        match self {
            Listed::Own(own) => own,
            Listed::Shared(shared) => shared.as_slice(),
        }
    }

    /// So many of its first commands, and no more.
    fn into_front(self, alloc: Global, len: usize) -> Result<Vec<Command>, NoMemory>
        requires { len ≤ length (all self) }
        ensures { IfOk result (λ own. own.items ≡ take len (all self)) }
    {
        match self {
            Listed::Own(own) => {
                let mut own = own;
                own.truncate(len);
                Ok(own)
            }
            Listed::Shared(shared) => Ok(Vec::from_slice(alloc, &shared.as_slice()[..len])?),
        }
    }
}

/// The commands taken so far: so many of a list's first ones. There is room for the one that is next
/// in the list.
#[derive(Drop)]
pub(crate) struct Front {
    alloc: Global,
    list: Listed,
    len: usize,
}

impl Model for Front {
    ghost use Rattle.std.specs.Prelude.{◌≤◌, take, length, slice_get};
    ghost use Rattle.command_log.specs.Log.{Log, log, log_code};
    ghost use Rattle.command_log.specs.Fronts.{all};

    ghost Value = { Log };

    ghost coded = { log_code };

    ghost view = { λ f. log (take f.len (all f.list)) (slice_get (all f.list) f.len) };

    ghost invariant = { λ f. f.len ≤ length (all f.list) };
}

impl Front {
    /// No commands, and the place of this list for some.
    pub(crate) fn own(alloc: Global, place: Vec<Command>) -> Front
        ensures { result.items ≡ [] }
    {
        Front {
            alloc,
            list: Listed::Own(place),
            len: 0,
        }
    }

    /// No commands. There is room for those of the list, one after another.
    pub(crate) fn following(alloc: Global, list: Commands) -> Front
        ensures { result.items ≡ [] }
    {
        Front {
            alloc,
            list: Listed::Shared(list),
            len: 0,
        }
    }

    /// The commands, in order.
    pub(crate) fn as_slice(&self) -> &[Command]
        ensures { result.now ≡ self.now.items }
    {
        &self.list.as_slice()[..self.len]
    }

    /// The commands, and no more, as a list that may be shared.
    pub(crate) fn into_commands(self) -> Result<Commands, NoMemory>
        ensures { IfOk result (λ c. c ≡ self.items) }
    {
        let Front { alloc, list, len } = self;
        Commands::new(alloc, list.into_front(alloc, len)?)
    }

    /// Makes room for the command. A list that others share, and in which another one is next, is left
    /// to them.
    #[inline(always)]
    pub(crate) fn make_room(&mut self, command: &Command) -> Result<(), NoMemory>
        ensures items { self.new.items ≡ self.old.items }
        ensures room { OnOk result (self.new.room ≡ Some command.now) }
        ensures full { OnErr result (self.old.room ≡ Some command.now → ⊥) }
    {
        if stands_at(self.list.as_slice(), self.len, command) {
            return Ok(());
        }
        if let Listed::Own(own) = &mut self.list {
            own.truncate(self.len);
            own.push(*command)?;
            return Ok(());
        }
        let mut own = Vec::from_slice(self.alloc, self.as_slice())?;
        own.push(*command)?;
        self.list = Listed::Own(own);
        Ok(())
    }

    /// Takes the command for which there is room.
    #[inline(always)]
    pub(crate) fn take_next(&mut self)
        requires { IsSome self.old.room }
        ensures { IfSome self.old.room (λ c. self.new.items ≡ self.old.items ++ c ∷ []) }
    {
        let _list = self.list.as_slice();
        self.len += 1;
    }
}
