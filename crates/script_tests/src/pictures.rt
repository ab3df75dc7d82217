//! Pictures of one point, byte by byte.

ghost use Rattle.std.specs.Prelude.{◌≡◌, ◌*◌, ◌≤◌, ◌∷◌, ◌++◌, [], All, IfOk, OnOk};
ghost use Rattle.std.specs.FinMap as map;
ghost use Rattle.frame_core.specs.Frames.{Scene, scene};

use crate::fixtures::opaque;
use frame_core::{Film, Frame, Marks};
use geom_core::{NoMemory, TileKey};
use io_edge::{Failed, MemSink};
use pixel_core::Pixel;
use ppm_out::{write_frame, write_frames_by};
use std::alloc::Global;
use std::test::Fail;

/// The tile that the one point is in.
const CORNER: TileKey = TileKey { row: 0, col: 0 };

#[test]
fn one_point_of_paper(rt: HostRuntime) -> Result<(), Fail> {
    let alloc = rt.alloc();
    let frame = Frame::new(alloc, 1, 1, opaque(0x33, 0x66, 0x99))?;
    let mut row = [0u8; 3];
    let mut whole = MemSink::new(vec![in alloc; 0; 64]?, 64, Vec::new(alloc));
    assert_eq!(rt; write_frame(&frame, &mut row, &mut whole), Ok(()));
    assert_eq!(rt; whole.bytes(), b"P6\n1 1\n255\n\x33\x66\x99".as_slice());
    let mut part = MemSink::new(vec![in alloc; 0; 64]?, 8, vec![in alloc; 2]?);
    assert_eq!(rt; write_frame(&frame, &mut row, &mut part), Err(Failed));
    assert_eq!(rt; part.bytes(), b"P6\n".as_slice());
    Ok(())
}

/// Adds a frame of one point of that paper.
fn push_point(alloc: Global, film: &mut Film, paper: Pixel) -> Result<(), NoMemory>
    requires opaque { paper.a ≡ 255 }
    ensures { OnOk result (film.new ≡ film.old ++ scene 1 1 paper map.empty ∷ []) }
{
    let mut fresh = Marks::none();
    fresh.mark(CORNER);
    film.push(Frame::new(alloc, 1, 1, paper)?, fresh)
}

/// Two frames of one point, of one paper and then of another.
fn two_points(alloc: Global) -> Result<Film, NoMemory>
    ensures { IfOk result (λ film. All (λ (f : Scene). 3 * (f.width * f.height) ≤ 3) film) }
{
    let mut film = Film::new(alloc);
    push_point(alloc, &mut film, opaque(1, 2, 3))?;
    push_point(alloc, &mut film, opaque(4, 5, 6))?;
    Ok(film)
}

#[test]
fn two_frames(rt: HostRuntime) -> Result<(), Fail> {
    let alloc = rt.alloc();
    let film = two_points(alloc)?;
    let mut picture = [0u8; 3];
    let mut out = MemSink::new(vec![in alloc; 0; 64]?, 64, Vec::new(alloc));
    assert_eq!(rt;
        write_frames_by(&rt, 1, &film, &mut picture, &mut out),
        Ok(())
    );
    assert_eq!(rt;
        out.bytes(),
        b"P6\n1 1\n255\n\x01\x02\x03P6\n1 1\n255\n\x04\x05\x06".as_slice()
    );
    Ok(())
}
