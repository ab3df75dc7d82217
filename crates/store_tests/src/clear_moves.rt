//! What a move of clear pixels leaves.

ghost use Rattle.std.specs.Prelude.{◌≡◌, None};

use crate::fixtures::{ORIGIN, layer, rect};
use desk_steps::{Base, Begun, Store};
use doc_model::Job;
use geom_core::NoMemory;
use pixel_core::Pixel;
use std::alloc::Global;
use std::process::Abort;
use std::test::Fail;
use whole_tiles::Painting;

/// A stroke that moves one point of layer 1 within the first tile.
fn moves(rt: &impl Abort, alloc: Global, store: &mut Store) -> Result<(), NoMemory>
    requires { store.old.way ≡ None }
{
    let job = Job::Move {
        rect: rect(rt, 0, 0, 1, 1),
        dx: 1,
        dy: 1,
    };
    assert!(rt; job.check().is_ok());
    assert!(rt; job.is_within_limits());
    store.prepare()?;
    match store.begin(1)? {
        Begun::Ready => {
            let shot = store.grab(alloc, job.reads().as_slice())?;
            let painting = Painting::new(alloc, job, shot)?;
            assert!(rt; painting.tile_count() == 1);
            store.put_whole(
                alloc,
                &painting.paint_like(alloc, 0, &mut None)?,
                Base::Compared,
            )?;
            store.finish();
        }
        _ => assert!(rt; false),
    }
    Ok(())
}

#[test]
fn a_move_of_clear_pixels_leaves_no_tile(rt: HostRuntime) -> Result<(), Fail> {
    let alloc = rt.alloc();
    let mut store = Store::new(alloc)?;
    let layer = layer(1, 0, 0, Pixel::CLEAR);
    assert!(rt; store.change(alloc, &layer).is_ok());
    moves(&rt, alloc, &mut store)?;
    assert!(rt; store.tile(1, ORIGIN).is_none());
    Ok(())
}
