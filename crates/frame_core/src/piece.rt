//! Rectangles inside one tile of the largest canvas, in few bytes.

ghost use Rattle.std.specs.Prelude.{◌≡◌, Some};
ghost use Rattle.geom_core.specs.Areas.{Area};
ghost use Rattle.frame_core.specs.Piece.{IsPiece};

use geom_core::Rect;
use std::marker::Model;

/// A rectangle of the largest canvas with at most 64 columns and 64 rows. It takes six bytes, where
/// a `Rect` takes sixteen.
#[derive(Clone, Copy)]
pub(crate) struct Piece {
    left: u16,
    top: u16,
    w: u8,
    h: u8,
}

impl Model for Piece {
    ghost use Rattle.std.specs.Prelude.{◌≤◌, ◌+◌};
    ghost use Rattle.geom_core.specs.Areas.{Area};

    ghost Value = { Area };

    ghost use Rattle.frame_core.specs.Piece.{seen, kept, kept-seen};

    ghost view = { seen };

    ghost invariant = { λ p. (1 ≤ p.w) × (1 ≤ p.h) × (p.left + p.w ≤ 2048) × (p.top + p.h ≤ 2048) };

    ghost inverse = { kept };

    ghost inverse_ok = { λ p h. kept-seen p };
}

impl Piece {
    /// The rectangle in few bytes.
    fn of(rect: &Rect) -> Piece
        requires { IsPiece rect.now }
        ensures { result ≡ rect.now }
    {
        Piece {
            left: rect.x() as u16,
            top: rect.y() as u16,
            w: rect.w() as u8,
            h: rect.h() as u8,
        }
    }

    /// The rectangle as one of the world.
    fn rect(&self) -> Rect
        ensures { result ≡ self.now }
    {
        match Rect::new(
            self.left as i32,
            self.top as i32,
            self.w as u32,
            self.h as u32,
        ) {
            Ok(rect) => rect,
            Err(_) => unreachable!(),
        }
    }
}

/// The rectangle of a piece, where there is one.
pub(crate) fn rect_of(piece: &Option<Piece>) -> Option<Rect>
    ensures { result ≡ piece.now }
{
    match piece {
        Some(piece) => Some(piece.rect()),
        None => None,
    }
}

/// The piece of a rectangle, where there is one.
pub(crate) fn piece_of(rect: &Option<Rect>) -> Option<Piece>
    requires { (a : Area) → rect.now ≡ Some a → IsPiece a }
    ensures { result ≡ rect.now }
{
    match rect {
        Some(rect) => Some(Piece::of(rect)),
        None => None,
    }
}
