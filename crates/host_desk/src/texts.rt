//! What was fed, as the text of a script.

ghost use Rattle.std.specs.Prelude.{◌≤◌, ◌+◌, OnOk, IfOk, length};
ghost use Rattle.host_desk.specs.Texts.{AddsLine, Gathered, TextTold};

use crate::host::Host;
use geom_core::NoMemory;
use host_lines::Answer;
use script_text::{add_canvas, add_command};

/// What was written of a text.
#[derive(Clone, Copy)]
pub struct Written {
    /// The line that comes next, from 0 on.
    pub next: u64,
    /// How many bytes were written.
    pub bytes: usize,
}

/// Some lines of a text.
#[derive(Drop)]
pub(crate) struct Lines {
    text: Vec<u8>,
    /// The line that comes next, from 0 on.
    next: usize,
}

impl Host {
    /// Writes what was fed as the text of a script from a line on: line 0 is the canvas, and the commands are those
    /// from 1 on. As many whole lines are written as there is room for.
    ///
    /// # Errors
    /// `Outside` where there is no such line, nor is it the one behind the last; `NoRoom` where there are fewer than
    /// 256 places; `NoMemory`. Nothing is written then.
    pub fn text(&self, next: u64, out: &mut [u8]) -> Result<Written, Answer>
        ensures { TextTold self.now next out.old result out.new }
    {
        if next.saturating_sub(1) > self.desk.fed_count() as u64 {
            return Err(Answer::Outside);
        }
        if out.len() < 256 {
            return Err(Answer::NoRoom);
        }
        let Ok(lines) = self.lines_from(next as usize, out.len()) else {
            return Err(Answer::NoMemory);
        };
        let bytes = lines.text.len();
        out[..bytes].copy_from_slice(&lines.text);
        Ok(Written {
            next: lines.next as u64,
            bytes,
        })
    }

    /// As many lines from one on as so many places take.
    #[tactic(auto, using(crate::proofs::WrittenLines::none_yet, crate::proofs::WrittenLines::line_added, crate::proofs::WrittenLines::stops_before, crate::proofs::WrittenLines::stops_at_end))]
    fn lines_from(&self, from: usize, room: usize) -> Result<Lines, NoMemory>
        requires { from ≤ 1 + length self.now.fed }
        ensures { IfOk result (λ l. Gathered self.now from l.next l.text.items room) }
    {
        let mut text = Vec::new(self.alloc);
        let end = self.desk.commands().len() + 1;
        for i in from..end {
            let before = text.len();
            self.add_line(&mut text, i)?;
            if text.len() > room {
                text.truncate(before);
                return Ok(Lines { text, next: i });
            }
        }
        Ok(Lines { text, next: end })
    }

    /// Adds a line at the end.
    fn add_line(&self, text: &mut Vec<u8>, i: usize) -> Result<(), NoMemory>
        requires { i ≤ length self.now.fed }
        ensures { OnOk result (AddsLine self.now i text.old.items text.new.items) }
    {
        if i == 0 {
            add_canvas(text, &self.desk.canvas())
        } else {
            add_command(text, self.desk.fed(i - 1))
        }
    }
}
