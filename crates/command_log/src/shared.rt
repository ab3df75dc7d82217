//! Commands that several share.

ghost use Rattle.std.specs.Prelude.{◌≡◌, IfOk};

use doc_model::Command;
use geom_core::NoMemory;
use std::alloc::Global;
use std::marker::Model;
use std::sync::Arc;

/// Commands in order, behind a counted reference. They never change, so whoever shares them keeps
/// reading them.
#[derive(Drop)]
pub struct Commands {
    list: Arc<Vec<Command>>,
}

impl Model for Commands {
    ghost use Rattle.std.specs.Prelude.{List};
    ghost use Rattle.doc_model.specs.declared.command.Command.{Command};

    ghost Value = { List Command };

    ghost view = { λ c. c.list.value.items };
}

impl Commands {
    /// These commands, which are not copied.
    pub fn new(alloc: Global, commands: Vec<Command>) -> Result<Self, NoMemory>
        ensures { IfOk result (λ c. c ≡ commands.items) }
    {
        Ok(Commands {
            list: Arc::new(alloc, commands)?,
        })
    }

    /// The commands, in order.
    pub fn as_slice(&self) -> &[Command]
        ensures { result.now ≡ self.now }
    {
        self.list.as_slice()
    }

    /// One more reference to the same commands. `NoMemory` only where the count of references is full.
    pub fn share(&self) -> Result<Self, NoMemory>
        ensures { IfOk result (λ c. c ≡ self.now) }
    {
        Ok(Commands {
            list: Arc::try_clone(&self.list)?,
        })
    }
}
