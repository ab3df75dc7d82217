//! Lines that a machine follows.

ghost use Rattle.std.specs.Prelude.{◌≡◌, ◌<◌, ◌+◌, length};
ghost use Rattle.script_lines.specs.Fronts.{pointed, lines_behind};
ghost use Rattle.trace_lines.specs.Fits.{Fits};
ghost use Rattle.trace_core.specs.Parts.{parts};
ghost use Rattle.trace_core.specs.Moves.{Follows};
ghost use Rattle.trace_core.specs.Following.{happens, line_follows, follow, LeadsTo, Counts};

use crate::machine::OutlinedMachine;
use crate::refusal::{ReplayRefusal, fault};
use geom_core::NoMemory;
use script_lines::next_fields;
use std::alloc::Global;
use trace_lines::{Line, TraceCause, line_of};

impl OutlinedMachine {
    /// What the line says happens. False where it may not.
    fn take(&mut self, line: &Line) -> Result<bool, NoMemory>
        requires { Fits line.now }
        ensures { Follows result (happens (parts self.old) line.now) (parts self.old)
            (parts self.new) }
    {
        match line {
            Line::Feed(command) => self.intake.feed(command),
            Line::Outside => Ok(false),
            Line::Step => self.step(),
            Line::Start(place) => Ok(self.start(*place)),
            Line::Publish(place, key) => self.publish(*place, *key),
            Line::End(place) => Ok(self.end(*place)),
            Line::Walk(place, patch) => self.walk(*place, patch),
            Line::Put(place, group, key) => self.put(*place, *group, *key),
        }
    }

    /// Follows the line of that number.
    fn follow_line(&mut self, number: u32, fields: &[&[u8]]) -> Result<(), ReplayRefusal>
        ensures { LeadsTo result (line_follows number (parts self.old) (pointed fields.now))
            (parts self.new) }
    {
        let Ok(line) = line_of(fields) else {
            return Err(fault(number, TraceCause::BadLine));
        };
        if self.take(&line)? {
            Ok(())
        } else {
            Err(fault(number, TraceCause::NotEnabled))
        }
    }

    /// Follows the lines behind the first two, and counts all of them.
    pub(crate) fn follow(
        &mut self,
        alloc: Global,
        behind: Option<&[u8]>,
    ) -> Result<u32, ReplayRefusal>
        requires { length (lines_behind behind) + 2 < 4294967296 }
        ensures leads { LeadsTo result (follow 3 (parts self.old) (lines_behind behind.entry))
            (parts self.new) }
        ensures count { Counts result (lines_behind behind.entry) }
    {
        let mut fields = Vec::new(alloc);
        let mut number = 2;
        let mut left = behind;
        while let Some(text) = left {
            left = next_fields(text, &mut fields)?;
            number += 1;
            self.follow_line(number, &fields)?;
        }
        Ok(number)
    }
}
