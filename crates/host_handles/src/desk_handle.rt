//! What C keeps of a desk.

ghost use Rattle.std.specs.Prelude.{◌≡◌, List, [], ◌∷◌, IfSome, IfNone};
ghost use Rattle.host_desk.specs.declared.host.Host.{Host};
ghost use Rattle.host_handles.specs.DeskHandles.{desk_kept, desks_coded};

use host_desk::Host;
use loose_box::Loose;
use std::alloc::Global;
use std::marker::Model;
use std::{mem, ptr};

/// A desk that C keeps, or nothing: then the handle is shut. One of zeros is shut.
#[repr(C)]
pub struct DeskHandle {
    at: *mut u8,
    alloc: Global,
    full: bool,
    pub ghost value: { List Host } by { desks_coded },
}

impl Model for DeskHandle {
    ghost also_owns = { λ h. desk_kept h.alloc h.at h.full h.value };
}

impl DeskHandle {
    /// One that has nothing.
    pub fn shut(alloc: Global) -> DeskHandle
        ensures { result.value ≡ [] }
    {
        DeskHandle {
            at: ptr::null_mut(),
            alloc,
            full: false,
        }
    }

    /// One that has what the box has.
    fn of(whole: Box<Host>) -> DeskHandle
        ensures { result.value ≡ whole.value ∷ [] }
    {
        DeskHandle::of_loose(Loose::of(whole))
    }

    /// What it has, and it is shut then. None where it was shut.
    pub fn take_out(&mut self, alloc: Global) -> Option<Box<Host>>
        ensures some { IfSome result (λ b. self.old.value ≡ b.value ∷ []) }
        ensures none { IfNone result (self.old.value ≡ []) }
        ensures shut { self.new.value ≡ [] }
    {
        mem::replace(self, DeskHandle::shut(alloc)).into_box()
    }

    /// It has what the box has, and what it had is let go.
    pub fn put(&mut self, whole: Box<Host>)
        ensures { self.new.value ≡ whole.value ∷ [] }
    {
        drop(mem::replace(self, DeskHandle::of(whole)).into_box());
    }

    /// What it has. None where it is shut.
    pub fn into_box(self) -> Option<Box<Host>>
        ensures some { IfSome result (λ b. self.value ≡ b.value ∷ []) }
        ensures none { IfNone result (self.value ≡ []) }
    {
        match self.into_loose() {
            Some(loose) => Some(loose.into_box()),
            None => None,
        }
    }

    fn of_loose(loose: Loose<Host, Global>) -> DeskHandle
        ensures { result.value ≡ loose.value ∷ [] }
    {
        let Loose { at, alloc } = loose;
        DeskHandle {
            at: at as *mut u8,
            alloc,
            full: true,
        }
    }

    fn into_loose(self) -> Option<Loose<Host, Global>>
        ensures { IfSome result (λ l. self.value ≡ l.value ∷ []) × IfNone result (self.value ≡ []) }
    {
        let DeskHandle { at, alloc, full } = self;
        if full {
            Some(Loose {
                at: at as *mut Host,
                alloc,
            })
        } else {
            None
        }
    }
}

unsafe impl Send for DeskHandle {}
