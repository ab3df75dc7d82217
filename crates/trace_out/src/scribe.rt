//! A desk whose events are written down as they happen.

ghost use Rattle.std.specs.Prelude.{◌≡◌, ◌≤◌, ◌<◌, ◌-◌, ◌^◌, ◌++◌, ◌∷◌, [], true, false, IfOk, OnOk, IfSome, IfNone, length, slice_get, Some, IsSomeAnd};
ghost use Rattle.std.specs.List.{list_all};
ghost use Rattle.doc_model.specs.Canvases.{IsOfLimits};
ghost use Rattle.doc_model.specs.Lawful.{may_follow};
ghost use Rattle.doc_model.specs.Strokes.{entries};
ghost use Rattle.script_forms.specs.Ranges.{in_range};
ghost use Rattle.machine_model.specs.State.{new_state, is_free};
ghost use Rattle.trace_lines.specs.Texts.{head_text};
ghost use Rattle.trace_out.specs.Writing.{IsTied, Writes};

use desk_core::Desk;
use desk_state::Work;
use doc_model::{Canvas, Command};
use geom_core::NoMemory;
use slot_core::Slots;
use std::alloc::Global;
use trace_lines::{Line, add_head, add_line};

/// A desk, what it has at work, as it was taken, and the trace of its events so far.
#[derive(Drop)]
pub(crate) struct Scribe {
    pub(crate) alloc: Global,
    pub(crate) desk: Desk,
    pub(crate) held: Slots<Work>,
    pub(crate) out: Vec<u8>,
}

impl Scribe {
    /// A desk on which nothing was fed, and the first two lines.
    pub(crate) fn new(alloc: Global, canvas: Canvas, slots: u8) -> Result<Scribe, NoMemory>
        requires canvas { IsOfLimits canvas }
        requires some { 1 ≤ slots }
        requires few { slots ≤ 17 }
        ensures state { IfOk result (λ s. s.desk ≡ new_state canvas slots) }
        ensures text { IfOk result (λ s. s.out.items ≡ head_text slots canvas) }
        ensures tied { IfOk result (λ s. IsTied s.held s.desk) }
    {
        let mut out = Vec::new(alloc);
        add_head(&mut out, slots, &canvas)?;
        let desk = Desk::new(alloc, canvas, slots)?;
        let held = Slots::new(alloc, slots)?;
        Ok(Scribe {
            alloc,
            desk,
            held,
            out,
        })
    }

    /// Feeds a command.
    pub(crate) fn feed(&mut self, command: &Command) -> Result<(), NoMemory>
        requires lawful { may_follow (entries self.old.desk.fed) command.now ≡ true }
        requires few { length self.old.desk.fed < 2 ^ 32 - 1 }
        requires ranges { in_range command.now ≡ true }
        requires tied { IsTied self.old.held self.old.desk }
        ensures fed { OnOk result (self.new.desk.fed ≡ self.old.desk.fed ++ command.now ∷ []) }
        ensures writes { OnOk result (Writes self.old.desk self.old.out.items self.new.desk
            self.new.out.items) }
        ensures tied { OnOk result (IsTied self.new.held self.new.desk) }
    {
        self.desk.feed(command)?;
        add_line(&mut self.out, &Line::Feed(*command))?;
        Ok(())
    }

    /// A place at which something is at work, the given one if that is. None exactly where all are free.
    pub(crate) fn busy_place(&self, place: u8) -> Option<u8>
        requires { IsTied self.now.held self.now.desk }
        ensures some { IfSome result (λ p. IsSomeAnd (slice_get self.now.desk.slots p)
            (λ slot. is_free slot ≡ false)) }
        ensures none { IfNone result (list_all is_free self.now.desk.slots ≡ true) }
    {
        if self.held.work(place).is_some() {
            return Some(place);
        }
        for p in 0..self.held.count() {
            if self.held.work(p).is_some() {
                return Some(p);
            }
        }
        None
    }
}
