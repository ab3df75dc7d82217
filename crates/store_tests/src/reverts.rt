//! Strokes that are taken back.

ghost use Rattle.std.specs.Prelude.{◌≡◌, ◌<◌, true, None, is_some, OnOk};

use crate::fixtures::{ORIGIN, blue, layer, red};
use desk_steps::{Begun, Store};
use doc_model::{Job, Kind};
use geom_core::NoMemory;
use job_core::PointWork;
use memento_core::Steps;
use pixel_core::{Op, Pixel};
use std::alloc::Global;
use std::marker::Brand;
use std::process::Abort;
use std::slice;
use std::sync::ledger::{Blank, Ledger};
use std::test::Fail;

/// What fills the tile.
fn fill(colour: Pixel) -> (Kind, Job) {
    let fill = Job::Fill {
        rect: ORIGIN.rect(),
        colour,
        op: Op::Over,
        strength: 255,
    };
    (Kind::Seq, fill)
}

/// How a stroke ends.
#[derive(Clone, Copy, PartialEq, Eq)]
enum Fate {
    Finished,
    Reverted,
}

/// A stroke on layer 1 that fills the tile, and ends so.
fn stroke<L: Ledger>(
    rt: &impl Abort,
    alloc: Global,
    store: &mut Store,
    steps: &mut Steps<L>,
    colour: Pixel,
    fate: Fate,
) -> Result<(), NoMemory>
    requires { store.old.way ≡ None }
    ensures { OnOk result (store.new.way ≡ None) }
{
    let job = fill(colour);
    assert!(rt; job.1.check().is_ok());
    assert!(rt; job.1.is_within_limits());
    let work = PointWork::run(slice::from_ref(&job)).expect(rt, "a job of one tile");
    store.prepare()?;
    match store.begin(1)? {
        Begun::Ready => {
            store.paint(alloc, &work)?;
            assert_eq!(rt; pixel(store), Some(colour));
            ends(rt, store, steps, fate);
        }
        _ => assert!(rt; false),
    }
    Ok(())
}

/// Ends the stroke under way.
fn ends<L: Ledger>(rt: &impl Abort, store: &mut Store, steps: &mut Steps<L>, fate: Fate)
    requires way { is_some store.old.way ≡ true }
    requires room { store.old.room ≡ true }
    ensures { store.new.way ≡ None }
{
    match fate {
        Fate::Finished => store.finish(),
        Fate::Reverted => {
            let touched = store.revert(steps);
            assert_eq!(rt; touched.count, 1);
            assert!(rt; touched.bound == Some(ORIGIN.rect()));
        }
    }
}

/// The pixel of layer 1 at (0, 0). None where no tile stands there.
fn pixel(store: &Store) -> Option<Pixel> {
    Some(store.tile(1, ORIGIN)?.pixel(0, 0))
}

/// A stroke is undone, another one is reverted, and the first can still be redone.
fn redoes_after_revert<L: Ledger>(
    rt: &impl Abort,
    alloc: Global,
    blank: Blank,
) -> Result<(), NoMemory>
    requires name { blank.name ≡ L.name }
    requires parts { blank.parts ≡ L.parts }
    requires some { 0 < blank.parts }
{
    let mut store = Store::new(alloc)?;
    let mut steps = Steps::<L>::new(blank);
    let layer = layer(1, 0, 0, Pixel::CLEAR);
    assert!(rt; store.change(alloc, &layer).is_ok());
    stroke(rt, alloc, &mut store, &mut steps, red(), Fate::Finished)?;
    assert!(rt; store.undo(&mut steps).is_some());
    assert!(rt; pixel(&store).is_none());
    stroke(rt, alloc, &mut store, &mut steps, blue(), Fate::Reverted)?;
    assert!(rt; pixel(&store).is_none());
    assert!(rt; store.redo(&mut steps).is_some());
    assert_eq!(rt; pixel(&store), Some(red()));
    assert!(rt; store.redo(&mut steps).is_none());
    Ok(())
}

#[test]
fn a_reverted_stroke_leaves_the_redo(rt: HostRuntime) -> Result<(), Fail> {
    redoes_after_revert::<Brand>(&rt, rt.alloc(), Blank::new(1))?;
    Ok(())
}
