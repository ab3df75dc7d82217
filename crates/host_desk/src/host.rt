//! A desk that a program holds.

ghost use Rattle.std.specs.Prelude.{◌≡◌, ◌≤◌, IfOk};
ghost use Rattle.doc_model.specs.Canvases.{IsOfLimits};
ghost use Rattle.machine_model.specs.State.{new_state};

use desk_core::Desk;
use doc_model::Canvas;
use geom_core::NoMemory;
use std::alloc::Global;
use std::marker::Model;

/// A desk and its allocator. Contracts see the desk's state.
#[derive(Drop)]
pub struct Host {
    pub(crate) alloc: Global,
    pub(crate) desk: Desk,
}

impl Model for Host {
    ghost use Rattle.machine_model.specs.State.{State};
    ghost use Rattle.machine_model.specs.Codes.{state_code};

    ghost Value = { State };

    ghost coded = { state_code };

    ghost view = { λ h. h.desk };
}

impl Host {
    /// A desk on which nothing was fed, with that many slots.
    pub fn open(alloc: Global, canvas: Canvas, slots: u8) -> Result<Host, NoMemory>
        requires canvas { IsOfLimits canvas }
        requires some { 1 ≤ slots }
        requires few { slots ≤ 17 }
        ensures { IfOk result (λ h. h ≡ new_state canvas slots) }
    {
        let desk = Desk::new(alloc, canvas, slots)?;
        Ok(Host { alloc, desk })
    }
}
