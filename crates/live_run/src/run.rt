//! A script is painted, and shown while it is.

ghost use Rattle.std.specs.Prelude.{◌≡◌, ◌≤◌, ◌-◌, ◌^◌, [], Ok, length, IfOk, OnErr};
ghost use Rattle.crew_run.specs.Painted.{IsPaintedBy};
ghost use Rattle.crew_run.specs.Watched.{SeesRoot};
ghost use Rattle.live_view.specs.Shown.{updates_of, StartsWith};
ghost use Rattle.live_view.specs.Views.{published, pending, all_updates};
ghost use Rattle.live_run.specs.Owing.{seen_in};
ghost use Rattle.live_run.specs.Painted.{IsShownBy};
ghost use Rattle.live_run.specs.Showing.{ShowsRoot};

use crate::lent::{Lending, Lent};
use crate::screen::{MOST, Screen};
use crew_run::run_watched;
use desk_core::{Desk, settled_shows_picture};
use geom_core::NoMemory;
use io_edge::Gate;
use live_view::{LiveWriter, Naming};
use script_text::Script;
use std::alloc::Global;
use std::marker::Brand;
use std::sync::Wait;
use std::thread::Threads;
use tile_core::Tile;

/// Paints a script by so many workers and the caller. Whenever a walk was composed, the root's tiles that it
/// met are published, so whoever has a reader of this writer sees them come; at the end all tiles of the
/// canvas are. The writer that comes back is the one that was given, and what it had published is still the
/// beginning. What is promised holds if it returns.
///
/// # Errors
/// `NoMemory`; the writer is closed.
pub fn run_live<K: Naming + Send + Sync, R: Threads + Wait + Sync, G: Gate>(
    rt: &R,
    alloc: Global,
    script: &Script,
    workers: u8,
    gate: &G,
    live: LiveWriter<K>,
) -> Result<(Desk, LiveWriter<K>), NoMemory>
    requires workers { workers ≤ 16 }
    requires few { length script.now.commands ≤ 2 ^ 32 - 1 }
    ensures { IfOk result (λ r. IsShownBy script.now live r.1 r.0) }
{
    let mut live = live;
    match paint_live(rt, alloc, script, workers, gate, &mut live) {
        Ok(desk) => Ok((desk, live)),
        Err(NoMemory) => {
            live.close(rt);
            Err(NoMemory)
        }
    }
}

/// Paints and publishes a script as `run_live` does, with a writer that is lent.
///
/// # Errors
/// `NoMemory`, also where the writer has more than 2^62 updates. It may have published some of the picture, behind
/// what it had published before, and some may be pending.
pub fn paint_live<K: Naming + Send + Sync, R: Threads + Wait + Sync, G: Gate>(
    rt: &R,
    alloc: Global,
    script: &Script,
    workers: u8,
    gate: &G,
    live: &mut LiveWriter<K>,
) -> Result<Desk, NoMemory>
    requires workers { workers ≤ 16 }
    requires few { length script.now.commands ≤ 2 ^ 32 - 1 }
    ensures ok { IfOk result (λ d. IsShownBy script.now live.old live.new d) }
    ensures err { OnErr result (StartsWith (published live.new) (published live.old)) }
{
    let lent = Lent::new(live);
    let Done { desk, lent } = paint_lent::<K, Brand, R, G>(rt, alloc, script, workers, gate, lent);
    let Lent { writer: _writer } = lent;
    let desk = desk?;
    settled_shows_picture(&desk);
    Ok(desk)
}

/// What comes back of a painting: the desk, if there was memory, and the writer that was lent.
#[derive(Drop)]
struct Done<'w, K: Naming> {
    desk: Result<Desk, NoMemory>,
    lent: Lent<'w, K>,
}

/// Paints the script, shows what the crew composes, and at the end the whole canvas. The writer's reference, what
/// it had published and the canvas have names.
fn paint_lent<
    'w,
    K: Naming + Send + Sync,
    B: Lending + Send + Sync,
    R: Threads + Wait + Sync,
    G: Gate,
>(rt: &R, alloc: Global, script: &Script, workers: u8, gate: &G, lent: Lent<'w, K>) -> Done<'w, K>
    requires workers { workers ≤ 16 }
    requires few { length script.now.commands ≤ 2 ^ 32 - 1 }
    requires canvas { script.now.canvas ≡ B.canvas }
    requires before { published lent.writer.now ≡ B.before }
    requires reference { lent.writer.ghost_name ≡ B.reference }
    ensures painted { IfOk result.desk (λ d. IsPaintedBy script.now d) }
    ensures pending { IfOk result.desk (λ _. pending result.lent.writer.now ≡ []) }
    ensures root { IfOk result.desk
        (λ d. ShowsRoot (updates_of (published result.lent.writer.now)) d) }
    ensures goes_on { StartsWith (published result.lent.writer.now) B.before }
    ensures reference { result.lent.writer.ghost_name ≡ B.reference }
{
    let _commands = script.commands();
    let Ok(blank) = Tile::clear(alloc) else {
        return Done {
            desk: Err(NoMemory),
            lent,
        };
    };
    if lent.writer.count() > MOST {
        return Done {
            desk: Err(NoMemory),
            lent,
        };
    }
    let screen: Screen<'w, K, B> = Screen::new(lent, blank, &script.canvas());
    let (painted, screen) = run_watched(rt, alloc, script, workers, gate, screen);
    show_last(rt, painted, screen)
}

/// Lays down what is owed of a painted desk.
fn show_last<'w, K: Naming, B: Lending, R: Wait>(
    rt: &R,
    painted: Result<Desk, NoMemory>,
    screen: Screen<'w, K, B>,
) -> Done<'w, K>
    requires canvas { IfOk painted (λ d. d.canvas ≡ B.canvas) }
    requires shows { IfOk painted (λ d. SeesRoot (seen_in screen.tiles screen.owed.items
        (all_updates screen.lent.writer.now)) d) }
    ensures desk { IfOk result.desk (λ d. painted ≡ Ok d) }
    ensures pending { IfOk result.desk (λ _. pending result.lent.writer.now ≡ []) }
    ensures root { IfOk result.desk
        (λ d. ShowsRoot (updates_of (published result.lent.writer.now)) d) }
    ensures goes_on { StartsWith (published result.lent.writer.now) B.before }
    ensures reference { result.lent.writer.ghost_name ≡ B.reference }
{
    let mut screen = screen;
    let desk = match painted {
        Ok(desk) => match screen.lay_owed(rt, &desk) {
            Ok(()) => Ok(desk),
            Err(NoMemory) => Err(NoMemory),
        },
        Err(NoMemory) => Err(NoMemory),
    };
    Done {
        desk,
        lent: screen.into_lent(),
    }
}
