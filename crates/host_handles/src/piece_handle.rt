//! What C keeps of a piece of work.

ghost use Rattle.std.specs.Prelude.{◌≡◌, List, [], ◌∷◌, IfSome, IfNone};
ghost use Rattle.host_pieces.specs.declared.piece.Piece.{Piece};
ghost use Rattle.host_handles.specs.PieceHandles.{piece_kept, pieces_coded};

use host_pieces::Piece;
use loose_box::Loose;
use std::alloc::Global;
use std::marker::Model;
use std::{mem, ptr};

/// A piece that C keeps, or nothing: then the handle is shut. One of zeros is shut.
#[repr(C)]
pub struct PieceHandle {
    at: *mut u8,
    alloc: Global,
    full: bool,
    pub ghost value: { List Piece } by { pieces_coded },
}

impl Model for PieceHandle {
    ghost also_owns = { λ h. piece_kept h.alloc h.at h.full h.value };
}

impl PieceHandle {
    /// One that has nothing.
    pub fn shut(alloc: Global) -> PieceHandle
        ensures { result.value ≡ [] }
    {
        PieceHandle {
            at: ptr::null_mut(),
            alloc,
            full: false,
        }
    }

    /// One that has what the box has.
    fn of(whole: Box<Piece>) -> PieceHandle
        ensures { result.value ≡ whole.value ∷ [] }
    {
        PieceHandle::of_loose(Loose::of(whole))
    }

    /// What it has, and it is shut then. None where it was shut.
    pub fn take_out(&mut self, alloc: Global) -> Option<Box<Piece>>
        ensures some { IfSome result (λ b. self.old.value ≡ b.value ∷ []) }
        ensures none { IfNone result (self.old.value ≡ []) }
        ensures shut { self.new.value ≡ [] }
    {
        mem::replace(self, PieceHandle::shut(alloc)).into_box()
    }

    /// It has what the box has, and what it had is let go.
    pub fn put(&mut self, whole: Box<Piece>)
        ensures { self.new.value ≡ whole.value ∷ [] }
    {
        drop(mem::replace(self, PieceHandle::of(whole)).into_box());
    }

    /// What it has. None where it is shut.
    pub fn into_box(self) -> Option<Box<Piece>>
        ensures some { IfSome result (λ b. self.value ≡ b.value ∷ []) }
        ensures none { IfNone result (self.value ≡ []) }
    {
        match self.into_loose() {
            Some(loose) => Some(loose.into_box()),
            None => None,
        }
    }

    fn of_loose(loose: Loose<Piece, Global>) -> PieceHandle
        ensures { result.value ≡ loose.value ∷ [] }
    {
        let Loose { at, alloc } = loose;
        PieceHandle {
            at: at as *mut u8,
            alloc,
            full: true,
        }
    }

    fn into_loose(self) -> Option<Loose<Piece, Global>>
        ensures { IfSome result (λ l. self.value ≡ l.value ∷ []) × IfNone result (self.value ≡ []) }
    {
        let PieceHandle { at, alloc, full } = self;
        if full {
            Some(Loose {
                at: at as *mut Piece,
                alloc,
            })
        } else {
            None
        }
    }
}

unsafe impl Send for PieceHandle {}
