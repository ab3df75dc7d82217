//! Histories of stores, and that each call can succeed.

ghost use Rattle.std.specs.Prelude.{◌≡◌, ◌<◌, ◌≤◌, None, OnOk};

use crate::fixtures::{self, ORIGIN, blue, crosses, rect, red};
use desk_steps::{Begun, Store};
use doc_model::{Change, Job, Kind, Look};
use geom_core::{NoMemory, Rect};
use job_core::PointWork;
use memento_core::Steps;
use pixel_core::{Op, Pixel};
use std::alloc::Global;
use std::marker::Brand;
use std::process::Abort;
use std::slice;
use std::sync::ledger::{Blank, Ledger};
use std::test::Fail;

/// Fills a rectangle.
fn fill(rect: Rect, colour: Pixel) -> (Kind, Job) {
    let fill = Job::Fill {
        rect,
        colour,
        op: Op::Over,
        strength: 255,
    };
    (Kind::Seq, fill)
}

/// Sets a layer of one pixel in, at the bottom.
fn layer(id: u16, ground: Pixel) -> Change {
    fixtures::layer(id, 0, 0, ground)
}

/// The work of a point operation that writes in one tile.
fn work<'a>(rt: &impl Abort, entry: &'a (Kind, Job)) -> PointWork<'a> {
    assert!(rt; entry.1.check().is_ok());
    assert!(rt; entry.1.is_within_limits());
    let work = PointWork::run(slice::from_ref(entry)).expect(rt, "a job of one tile");
    assert_eq!(rt; work.key(), ORIGIN);
    work
}

/// A stroke that paints two jobs, one after the other, on a layer where it can begin.
fn stroke(
    rt: &impl Abort,
    alloc: Global,
    store: &mut Store,
    id: u16,
    jobs: &[(Kind, Job); 2],
) -> Result<Begun, NoMemory>
    requires { store.old.way ≡ None }
    ensures { OnOk result (store.new.way ≡ None) }
{
    store.prepare()?;
    match store.begin(id)? {
        Begun::Ready => {
            store.paint(alloc, &work(rt, &jobs[0]))?;
            store.paint(alloc, &work(rt, &jobs[1]))?;
            store.finish();
            Ok(Begun::Ready)
        }
        begun => Ok(begun),
    }
}

/// Whether the change of the tree was made.
fn changes(store: &mut Store, alloc: Global, change: Change) -> bool
    requires { store.old.way ≡ None }
    ensures { store.new.way ≡ None }
{
    store.change(alloc, &change).is_ok()
}

/// The pixel of layer 1 in a column and a row of that tile. None where no tile stands there.
fn pixel_of(store: &Store, col: u8, row: u8) -> Option<Pixel>
    requires col { col < 64 }
    requires row { row < 64 }
{
    Some(store.tile(1, ORIGIN)?.pixel(col, row))
}

#[test]
fn a_fill_and_a_dab(rt: HostRuntime) -> Result<(), Fail> {
    let alloc = rt.alloc();
    let mut store = Store::new(alloc)?;
    assert!(rt; changes(&mut store, alloc, layer(1, Pixel::CLEAR)));
    let corner = rect(&rt, 0, 0, 32, 32);
    let dab = Job::Dab {
        x: 16,
        y: 16,
        r: 4,
        soft: false,
        colour: blue(),
        op: Op::Over,
        strength: 255,
    };
    let jobs = [fill(corner, red()), (Kind::Seq, dab)];
    assert_eq!(rt; stroke(&rt, alloc, &mut store, 1, &jobs)?, Begun::Ready);
    assert!(rt; pixel_of(&store, 0, 0) == Some(red()));
    assert!(rt; pixel_of(&store, 16, 16) == Some(blue()));
    assert!(rt; pixel_of(&store, 40, 40) == Some(Pixel::CLEAR));
    crosses(&store);
    Ok(())
}

/// What is made of a document: a change of the tree, or a stroke on layer 1.
#[derive(Clone, Copy)]
enum Step {
    Tree(Change),
    Stroke([(Kind, Job); 2]),
}

/// Whether the step was made.
fn makes(rt: &impl Abort, alloc: Global, store: &mut Store, step: Step) -> Result<bool, NoMemory>
    requires { store.old.way ≡ None }
    ensures { OnOk result (store.new.way ≡ None) }
{
    match step {
        Step::Tree(change) => Ok(changes(store, alloc, change)),
        Step::Stroke(jobs) => Ok(stroke(rt, alloc, store, 1, &jobs)? == Begun::Ready),
    }
}

/// A history: layer 1 is painted, hidden and moved into a group, painted again, and removed with it.
/// Another layer gets its id.
fn history(corner: Rect) -> [Step; 9] {
    let group = Change::Group {
        id: 7,
        parent: 0,
        place: 1,
    };
    let look = Change::Look {
        id: 1,
        look: Look {
            opacity: 255,
            op: Op::Over,
            visible: false,
        },
    };
    let into = Change::Place {
        id: 1,
        parent: 7,
        place: 0,
    };
    [
        Step::Tree(layer(1, Pixel::CLEAR)),
        Step::Stroke([fill(corner, red()), fill(corner, red())]),
        Step::Tree(layer(2, blue())),
        Step::Tree(look),
        Step::Tree(group),
        Step::Tree(into),
        Step::Stroke([fill(ORIGIN.rect(), blue()), fill(corner, red())]),
        Step::Tree(Change::Remove { id: 7 }),
        Step::Tree(layer(1, red())),
    ]
}

/// What is seen of layers 1 and 2.
#[derive(Clone, Copy, PartialEq, Eq)]
struct Seen {
    corner: Option<Pixel>,
    middle: Option<Pixel>,
    look: Option<Look>,
    group: Option<u16>,
    second: bool,
}

fn see(store: &Store) -> Seen {
    Seen {
        corner: pixel_of(store, 4, 4),
        middle: pixel_of(store, 30, 30),
        look: store.tree().look(1),
        group: store.tree().parent(1),
        second: store.tree().has(2),
    }
}

/// Undoes all and redoes it: what was seen is seen again. Behind the newest that is kept nothing is.
fn back_and_forth<L: Ledger>(rt: &impl Abort, store: &mut Store, blank: Blank, seen: &[Seen])
    requires name { blank.name ≡ L.name }
    requires parts { blank.parts ≡ L.parts }
    requires some { 0 < blank.parts }
    requires rest { store.old.way ≡ None }
    ensures { store.new.way ≡ None }
{
    let mut steps = Steps::<L>::new(blank);
    for i in 1..seen.len() {
        assert!(rt; store.undo(&mut steps).is_some());
        assert!(rt; see(store) == seen[seen.len() - 1 - i]);
    }
    assert!(rt; store.undo(&mut steps).is_none());
    for i in 1..seen.len() {
        assert!(rt; store.redo(&mut steps).is_some());
        assert!(rt; see(store) == seen[i]);
    }
    assert!(rt; store.redo(&mut steps).is_none());
}

#[test]
fn each_step_is_undone_and_redone(rt: HostRuntime) -> Result<(), Fail> {
    let alloc = rt.alloc();
    let mut store = Store::new(alloc)?;
    let corner = rect(&rt, 0, 0, 8, 8);
    let mut seen = vec![in alloc; see(&store); 1]?;
    for step in history(corner) {
        assert!(rt; makes(&rt, alloc, &mut store, step)?);
        seen.push(see(&store))?;
    }
    assert!(rt; seen.len() == 10);
    assert!(rt; seen[7].corner == Some(red()));
    back_and_forth::<Brand>(&rt, &mut store, Blank::new(1), &seen);
    back_and_forth::<Brand>(&rt, &mut store, Blank::new(1), &seen);
    store.purge(2);
    back_and_forth::<Brand>(&rt, &mut store, Blank::new(1), &seen[7..10]);
    Ok(())
}
