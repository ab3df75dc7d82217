//! Small jobs, painted without tickets.

ghost use Rattle.std.specs.Prelude.{◌≡◌, Ok, None, IfOk, IfSome, OnErr};
ghost use Rattle.desk_events.specs.SmallJobs.{PaintsSmall};
ghost use Rattle.desk_state.specs.Settles.{Settles};

use crate::desk::Desk;
use geom_core::{NoMemory, Rect};
use std::slice;

impl Desk {
    /// Paints jobs of the stroke at the head in place, where no job is at work: the next one and some behind it
    /// that write within one tile alone and needn't wait for what is to be composed. It tells the least
    /// rectangle round all that they write. None where it painted none. It is for who is alone with the desk, since
    /// pixels are painted in the call.
    ///
    /// # Errors
    /// `NoMemory`; all is as it was.
    pub fn paint_small(&mut self) -> Result<Option<Rect>, NoMemory>
        ensures some { IfOk result (λ o. IfSome o (λ bound. PaintsSmall self.old bound self.new)) }
        ensures none { result ≡ Ok None → self.new ≡ self.old }
        ensures err { OnErr result (self.new ≡ self.old) }
        ensures runs { Settles self.old self.new }
        ensures canvas { self.new.canvas ≡ self.old.canvas }
        ensures fed { self.new.fed ≡ self.old.fed }
    {
        match self.machine.paint_small()? {
            Some(bound) => {
                self.damage.add_all(slice::from_ref(&bound));
                self.calm = false;
                Ok(Some(bound))
            }
            None => Ok(None),
        }
    }
}
