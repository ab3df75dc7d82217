//! Small jobs, painted without tickets.

ghost use Rattle.std.specs.Prelude.{◌≡◌, Ok, None, IfOk, IfSome, OnErr};
ghost use Rattle.desk_events.specs.SmallJobs.{PaintsSmall};
ghost use Rattle.desk_state.specs.Settles.{Settles};

use crate::desk::StampedDesk;
use crate::history::StampNaming;
use geom_core::{NoMemory, Rect};

impl<J: StampNaming> StampedDesk<J> {
    /// Paints jobs of the stroke at the head in place, as `Desk::paint_small` does. None where it painted none.
    ///
    /// # Errors
    /// `NoMemory`; all is as it was.
    pub fn paint_small(&mut self) -> Result<Option<Rect>, NoMemory>
        ensures some { IfOk result (λ o. IfSome o (λ bound. PaintsSmall self.old bound self.new)) }
        ensures none { result ≡ Ok None → self.new ≡ self.old }
        ensures err { OnErr result (self.new ≡ self.old) }
        ensures runs { Settles self.old self.new }
        ensures canvas { self.new.canvas ≡ self.old.canvas }
        ensures fed { self.new.fed ≡ self.old.fed }
    {
        self.desk.paint_small()
    }
}
