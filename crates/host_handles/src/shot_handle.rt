//! What C keeps of a shot.

ghost use Rattle.std.specs.Prelude.{◌≡◌, List, [], ◌∷◌, IfSome, IfNone};
ghost use Rattle.host_desk.specs.declared.shot.Shot.{Shot};
ghost use Rattle.host_handles.specs.ShotHandles.{shot_kept, shots_coded};

use host_desk::Shot;
use loose_box::Loose;
use std::alloc::Global;
use std::marker::Model;
use std::{mem, ptr};

/// A shot that C keeps, or nothing: then the handle is shut. One of zeros is shut.
#[repr(C)]
pub struct ShotHandle {
    at: *mut u8,
    alloc: Global,
    full: bool,
    pub ghost value: { List Shot } by { shots_coded },
}

impl Model for ShotHandle {
    ghost also_owns = { λ h. shot_kept h.alloc h.at h.full h.value };
}

impl ShotHandle {
    /// One that has nothing.
    pub fn shut(alloc: Global) -> ShotHandle
        ensures { result.value ≡ [] }
    {
        ShotHandle {
            at: ptr::null_mut(),
            alloc,
            full: false,
        }
    }

    /// One that has what the box has.
    fn of(whole: Box<Shot>) -> ShotHandle
        ensures { result.value ≡ whole.value ∷ [] }
    {
        ShotHandle::of_loose(Loose::of(whole))
    }

    /// What it has, and it is shut then. None where it was shut.
    pub fn take_out(&mut self, alloc: Global) -> Option<Box<Shot>>
        ensures some { IfSome result (λ b. self.old.value ≡ b.value ∷ []) }
        ensures none { IfNone result (self.old.value ≡ []) }
        ensures shut { self.new.value ≡ [] }
    {
        mem::replace(self, ShotHandle::shut(alloc)).into_box()
    }

    /// It has what the box has, and what it had is let go.
    pub fn put(&mut self, whole: Box<Shot>)
        ensures { self.new.value ≡ whole.value ∷ [] }
    {
        drop(mem::replace(self, ShotHandle::of(whole)).into_box());
    }

    /// What it has. None where it is shut.
    pub fn into_box(self) -> Option<Box<Shot>>
        ensures some { IfSome result (λ b. self.value ≡ b.value ∷ []) }
        ensures none { IfNone result (self.value ≡ []) }
    {
        match self.into_loose() {
            Some(loose) => Some(loose.into_box()),
            None => None,
        }
    }

    fn of_loose(loose: Loose<Shot, Global>) -> ShotHandle
        ensures { result.value ≡ loose.value ∷ [] }
    {
        let Loose { at, alloc } = loose;
        ShotHandle {
            at: at as *mut u8,
            alloc,
            full: true,
        }
    }

    fn into_loose(self) -> Option<Loose<Shot, Global>>
        ensures { IfSome result (λ l. self.value ≡ l.value ∷ []) × IfNone result (self.value ≡ []) }
    {
        let ShotHandle { at, alloc, full } = self;
        if full {
            Some(Loose {
                at: at as *mut Shot,
                alloc,
            })
        } else {
            None
        }
    }
}

unsafe impl Send for ShotHandle {}
