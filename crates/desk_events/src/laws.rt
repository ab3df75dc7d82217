//! What holds of every machine, whatever events happened and in whatever order.

ghost use Rattle.machine_model.specs.MeaningLaws.{HasMeaning};
ghost use Rattle.machine_model.specs.Settled.{IsSettled};
ghost use Rattle.desk_events.specs.Shown.{ShowsPicture};

use crate::machine::Machine;

/// A machine that is settled has what the commands that were fed mean one after another.
pub fn settled_has_meaning(machine: &Machine)
    ensures { IsSettled machine.now → HasMeaning machine.now }
{
    let _ = &machine.alloc;
}

/// A machine that is settled has in its root's cache the picture of the document that the commands make.
pub fn settled_shows_picture(machine: &Machine)
    ensures { IsSettled machine.now → ShowsPicture machine.now }
{
    let _ = &machine.alloc;
}
