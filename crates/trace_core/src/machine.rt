//! The machine without pixels.

ghost use Rattle.std.specs.Prelude.{◌≡◌, IfOk, replicate, slice_get, ◌&&◌, Some, IsTrue, ◌↔◌};
ghost use Rattle.doc_model.specs.Canvases.{IsOfLimits};
ghost use Rattle.machine_model.specs.State.{new_state};
ghost use Rattle.trace_core.specs.Outline.{outline};
ghost use Rattle.trace_core.specs.Parts.{parts};
ghost use Rattle.trace_core.specs.Moves.{no_painter, no_walker, is_clean, is_settled};

use doc_model::Canvas;
use geom_core::{NoMemory, Rect};
use std::alloc::Global;
use trace_state::{History, Intake, Slot, all_free, some_painter, some_walker};
use update_queue::Updates;

/// All of the machine's state but pixels, serials and outcomes.
#[derive(Drop)]
pub(crate) struct OutlinedMachine {
    pub(crate) alloc: Global,
    /// The canvas's points.
    pub(crate) area: Rect,
    pub(crate) intake: Intake,
    pub(crate) history: History,
    /// How many jobs of the stroke under way were started.
    pub(crate) way: Option<u32>,
    pub(crate) updates: Updates,
    pub(crate) slots: Vec<Slot>,
}

/// So many free slots.
fn free_slots(alloc: Global, n: u8) -> Result<Vec<Slot>, NoMemory>
    ensures { IfOk result (λ slots. slots.items ≡ replicate n Slot.Free) }
{
    let mut slots = Vec::new(alloc);
    for _ in 0..n {
        slots.push(Slot::Free)?;
    }
    Ok(slots)
}

impl OutlinedMachine {
    /// A machine to which nothing was fed, with n free slots.
    pub(crate) fn new(alloc: Global, canvas: &Canvas, n: u8) -> Result<OutlinedMachine, NoMemory>
        requires { IsOfLimits canvas.now }
        ensures { IfOk result (λ m. parts m ≡ outline (new_state canvas.now n)) }
    {
        let slots = free_slots(alloc, n)?;
        let area = canvas.rect();
        Ok(OutlinedMachine {
            alloc,
            area,
            intake: Intake::new(alloc),
            history: History::new(alloc),
            way: None,
            updates: Updates::new(area),
            slots,
        })
    }

    /// Whether every entry has its outcome, and nothing runs or waits.
    pub(crate) fn is_settled(&self) -> bool
        ensures { result ≡ is_settled (parts self.now) }
    {
        self.intake.is_done() && (all_free(&self.slots) && self.is_clean())
    }

    /// Whether no job is at work.
    pub(crate) fn no_painter(&self) -> bool
        ensures { result ≡ no_painter (parts self.now) }
    {
        !some_painter(&self.slots)
    }

    /// Whether no walk is at work.
    pub(crate) fn no_walker(&self) -> bool
        ensures { result ≡ no_walker (parts self.now) }
    {
        !some_walker(&self.slots)
    }

    /// Whether no patch waits.
    pub(crate) fn is_clean(&self) -> bool
        ensures { result ≡ is_clean (parts self.now) }
    {
        self.updates.len() == 0
    }

    /// Whether that slot is there and free.
    pub(crate) fn is_free(&self, place: u8) -> bool
        ensures { IsTrue result ↔ (slice_get self.now.slots.items place ≡ Some Slot.Free) }
    {
        match self.slots.get(place as usize) {
            Some(Slot::Free) => true,
            _ => false,
        }
    }
}
