//! What a crew asks before it takes.

ghost use Rattle.std.specs.Prelude.{◌↔◌, IsTrue};
ghost use Rattle.desk_core.specs.Asks.{HeadMayGo};

use crate::desk::Desk;
use desk_state::Choice;

impl Desk {
    /// Whether an event of the entry at the head may happen, as `take` then makes one. Where none may, the
    /// head waits for what is at work, for what is to be composed, or for commands. No memory.
    pub fn head_may_go(&self) -> bool
        ensures { IsTrue result ↔ HeadMayGo self.now }
    {
        match self.machine.choice() {
            Choice::Finish => true,
            Choice::Cancel => true,
            Choice::Act => true,
            Choice::Init => true,
            Choice::Start(_) => true,
            Choice::Wait => false,
        }
    }
}
