//! Opening a script.

ghost use Rattle.std.specs.Prelude.{◌≡◌, ◌≤◌, ◌<◌, [], OnOk, length};
ghost use Rattle.host_desk.specs.Feeding.{Feeds};
ghost use Rattle.host_desk.specs.Opening.{OpensScript};

use crate::feeding::MOST_COMMANDS;
use crate::host::Host;
use desk_core::Desk;
use geom_core::NoMemory;
use script_text::{ReadRefusal, Script, read};
use std::alloc::Global;

impl Host {
    /// A desk for the canvas of a script, with that many slots, which is fed all of the script's commands.
    ///
    /// # Errors
    /// `Fault` with the first fault of the text; `NoMemory`.
    pub fn open_script(alloc: Global, text: &[u8], slots: u8) -> Result<Host, ReadRefusal>
        requires short { length text.now < 4294967295 }
        requires some { 1 ≤ slots }
        requires few { slots ≤ 17 }
        ensures { OpensScript text.now slots result }
    {
        let script = read(alloc, text)?;
        let mut desk = Desk::following(alloc, script.canvas(), slots, script.list())?;
        feed_script(&mut desk, &script)?;
        Ok(Host { alloc, desk })
    }
}

/// Feeds all commands of a script to a desk on which nothing was fed.
///
/// # Errors
/// `NoMemory`; some of them may be fed. A script of more commands than a desk takes is too long for any text.
#[tactic(auto, using(crate::proofs::FedScripts::script_more, crate::proofs::FedScripts::script_all, crate::proofs::FedScripts::room_left, crate::proofs::FedScripts::next_of_script))]
fn feed_script(desk: &mut Desk, script: &Script) -> Result<(), NoMemory>
    requires { desk.old.fed ≡ [] }
    ensures { OnOk result (Feeds desk.old script.now.commands desk.new) }
{
    let _lawful = script.commands();
    if script.len() > MOST_COMMANDS {
        return Err(NoMemory);
    }
    for i in 0..script.len() {
        desk.feed(script.command(i))?;
    }
    Ok(())
}
