//! The threads and the lock.

ghost use Rattle.std.specs.Prelude.{◌≡◌, ◌≤◌, ◌<◌, ◌-◌, ◌^◌, length, IfOk};
ghost use Rattle.crew_run.specs.Front.{IsFront};
ghost use Rattle.crew_run.specs.Painted.{IsPaintedBy};
ghost use Rattle.crew_run.specs.Watched.{SeesRoot};

use crate::board::{Board, Brought, Following, Next};
use crate::feeding::finish;
use crate::watching::{Unwatched, Watching};
use crate::work::{Tiles, WalkRows, Work};
use desk_core::{Desk, Taken};
use geom_core::NoMemory;
use io_edge::Gate;
use memento_core::Steps;
use script_text::Script;
use stamped_desk::{StampNaming, StampedDesk, StampedPainting, StampedTiles, Unnamed};
use std::alloc::Global;
use std::marker::Brand;
use std::sync::ledger::{Blank, Ledger};
use std::sync::{Condvar, Mutex, MutexGuard, Wait};
use std::thread;
use std::thread::Threads;

/// What the threads share.
#[derive(Drop)]
struct Crew<'a, J: Following + StampNaming, R, G, W: Watching> {
    rt: &'a R,
    script: &'a Script,
    gate: &'a G,
    board: Mutex<Board<J, W>>,
    changed: Condvar,
    ghost script_is: { script.now ≡ J.script },
}

/// A thread of the crew, the caller's or another, with a count of steps of its own.
#[derive(Drop)]
struct Worker<'c, 'a, J: Following + StampNaming, L: Ledger, R, G, W: Watching> {
    alloc: Global,
    crew: &'c Crew<'a, J, R, G, W>,
    steps: Steps<L>,
}

impl<'c, 'a, J: Following + StampNaming, L: Ledger, R: Wait, G: Gate, W: Watching> Worker<
    'c,
    'a,
    J,
    L,
    R,
    G,
    W,
> {
    /// Its first work.
    fn first(&mut self) -> Option<Work<J>> {
        let crew = self.crew;
        let board = crew.board.lock(crew.rt);
        self.next(board)
    }

    /// Work, or none where all is done or can't be done here. It waits where others have all the work,
    /// and lets the board go. One thread is woken where something worth it is left.
    fn next(&mut self, board: MutexGuard<'_, Board<J, W>>) -> Option<Work<J>> {
        let crew = self.crew;
        let mut board = board;
        for _ in crew.rt.forever() {
            match board.look(crew.script, &mut self.steps) {
                Next::Work(work) => {
                    let is_for_two = work.leaves() && board.has_sleeper();
                    drop(board);
                    if is_for_two {
                        crew.changed.notify_one();
                    }
                    return Some(work);
                }
                Next::Again => {}
                Next::Wait => {
                    board.sleeps();
                    board = crew.changed.wait(crew.rt, board);
                    board.wakes();
                }
                Next::Stop => {
                    drop(board);
                    crew.changed.notify_all();
                    return None;
                }
            }
        }
        unreachable!()
    }

    /// Does a piece of work outside the lock, and brings it. The next work follows, or none where the
    /// thread stops.
    fn turn(&mut self, work: &Work<J>) -> Option<Work<J>> {
        match work {
            Work::Paint { tiles, .. } => self.paint(tiles),
            Work::Compose { rows, .. } => self.compose(rows),
        }
    }

    /// Paints tiles of a job. Who brings the last of them publishes all.
    fn paint(&mut self, tiles: &Tiles<J>) -> Option<Work<J>> {
        let Ok(mut made) = tiles.job.paint(self.alloc, tiles.from, tiles.to) else {
            return self.give_up();
        };
        if tiles.are_all {
            return self.publish(&tiles.job, &made);
        }
        let crew = self.crew;
        let mut board = crew.board.lock(crew.rt);
        match board.bring(tiles.job.slot().serial, &mut made) {
            Brought::Kept => self.next(board),
            Brought::All(made) => {
                drop(board);
                self.publish(&tiles.job, &made)
            }
            Brought::Over => {
                drop(board);
                self.give_up()
            }
        }
    }

    /// Enters the gate for a job whose tiles are all painted, and then publishes them in one hold.
    fn publish(&mut self, job: &StampedPainting<J>, made: &StampedTiles<J>) -> Option<Work<J>> {
        let crew = self.crew;
        crew.gate.painting(job.stroke(), job.job());
        let mut board = crew.board.lock(crew.rt);
        board.put_job(made);
        self.next(board)
    }

    /// Composes tiles of a walk, and publishes them in one hold.
    fn compose(&mut self, rows: &WalkRows<J>) -> Option<Work<J>> {
        let Ok(composed) = rows.compose(self.alloc) else {
            return self.give_up();
        };
        let crew = self.crew;
        let mut board = crew.board.lock(crew.rt);
        board.put_rows(crew.rt, rows, &composed);
        self.next(board)
    }

    /// All threads are to stop.
    fn give_up(&self) -> Option<Work<J>> {
        let crew = self.crew;
        crew.board.lock(crew.rt).give_up();
        crew.changed.notify_all();
        None
    }

    /// Works alone, up to work beside which something is left that is worth another thread.
    fn alone(&mut self) -> Option<Work<J>> {
        let mut next = self.first();
        for _ in self.crew.rt.forever() {
            match next {
                None => return None,
                Some(work) if work.leaves() => return Some(work),
                Some(work) => next = self.turn(&work),
            }
        }
        unreachable!()
    }

    /// Works until nothing is left to be done.
    fn work(&mut self, first: Option<Work<J>>) {
        let mut next = first;
        for _ in self.crew.rt.forever() {
            match next {
                None => return,
                Some(work) => next = self.turn(&work),
            }
        }
    }
}

/// A thread more joins a crew, and works until nothing is left to be done.
fn join<J: Following + StampNaming, R: Wait, G: Gate, W: Watching>(
    alloc: Global,
    crew: &Crew<'_, J, R, G, W>,
) {
    named_join::<J, Brand, R, G, W>(alloc, crew, Blank::new(1));
}

/// The thread of `join`, with the ledger of its steps under a name.
fn named_join<J: Following + StampNaming, L: Ledger, R: Wait, G: Gate, W: Watching>(
    alloc: Global,
    crew: &Crew<'_, J, R, G, W>,
    blank: Blank,
)
    requires name { blank.name ≡ L.name }
    requires parts { blank.parts ≡ L.parts }
    requires some { 0 < blank.parts }
{
    let mut worker = Worker {
        alloc,
        crew,
        steps: Steps::<L>::new(blank),
    };
    let first = worker.first();
    worker.work(first);
}

/// So many threads more join the caller's crew, and all work until nothing is left to be done.
fn together<
    J: Following + StampNaming + Send + Sync,
    L: Ledger,
    R: Threads + Wait + Sync,
    G: Gate,
    W: Watching + Send,
>(caller: &mut Worker<'_, '_, J, L, R, G, W>, workers: u8, work: Work<J>) {
    let alloc = caller.alloc;
    let crew = caller.crew;
    thread::scope(thread::scope_env(), crew.rt, move |scope| {
        for _ in 0..workers {
            // the caller does the work of a thread that can't be started
            let _ = scope.spawn(move || join(alloc, crew));
        }
        caller.work(Some(work));
    });
}

/// The caller works alone up to the first work that is worth so many workers, and then beside them.
fn work_all<
    J: Following + StampNaming + Send + Sync,
    L: Ledger,
    R: Threads + Wait + Sync,
    G: Gate,
    W: Watching + Send,
>(crew: &Crew<'_, J, R, G, W>, alloc: Global, workers: u8, steps: Steps<L>) -> Steps<L> {
    let mut caller = Worker { alloc, crew, steps };
    if let Some(work) = caller.alone() {
        together(&mut caller, workers, work);
    }
    let Worker { steps, .. } = caller;
    steps
}

/// Paints a script by so many workers and the caller. What is promised holds if it returns: then it is
/// the same for every number of workers and every order of their steps.
///
/// # Errors
/// `NoMemory`.
pub fn run_crew<R: Threads + Wait + Sync, G: Gate>(
    rt: &R,
    alloc: Global,
    script: &Script,
    workers: u8,
    gate: &G,
) -> Result<Desk, NoMemory>
    requires workers { workers ≤ 16 }
    requires few { length script.now.commands ≤ 2 ^ 32 - 1 }
    ensures { IfOk result (λ d. IsPaintedBy script.now d) }
{
    let (desk, _) = run_watched(rt, alloc, script, workers, gate, Unwatched);
    desk
}

/// Paints a script as `run_crew` does, with somebody who watches, and comes back at the end. At the beginning and
/// at the end all tiles are owed: what the caller composes there isn't told.
///
/// # Errors
/// `NoMemory`.
pub fn run_watched<R: Threads + Wait + Sync, G: Gate, W: Watching + Send>(
    rt: &R,
    alloc: Global,
    script: &Script,
    workers: u8,
    gate: &G,
    watch: W,
) -> (Result<Desk, NoMemory>, W)
    requires workers { workers ≤ 16 }
    requires few { length script.now.commands ≤ 2 ^ 32 - 1 }
    ensures painted { IfOk result.0 (λ d. IsPaintedBy script.now d) }
    ensures shows { IfOk result.0 (λ d. SeesRoot (W.seen result.1) d) }
{
    match new_desk(alloc, script, workers + 1) {
        Ok(desk) => named_run::<Brand, Brand, R, G, W>(
            rt,
            alloc,
            script,
            workers,
            gate,
            watch,
            desk,
            Unnamed::new(),
            Blank::new(1),
        ),
        Err(NoMemory) => (Err(NoMemory), watch),
    }
}

/// The crew of `run_watched`, with the script, the stamps and the ledger of the caller's steps under names.
#[tactic(auto, using(crate::proofs::Roots::owed_shown))]
fn named_run<
    'a,
    J: Following + StampNaming + Send + Sync,
    L: Ledger,
    R: Threads + Wait + Sync,
    G: Gate,
    W: Watching + Send,
>(
    rt: &'a R,
    alloc: Global,
    script: &'a Script,
    workers: u8,
    gate: &'a G,
    watch: W,
    desk: Desk,
    unnamed: Unnamed<Taken>,
    blank: Blank,
) -> (Result<Desk, NoMemory>, W)
    requires workers { workers ≤ 16 }
    requires few { length script.now.commands ≤ 2 ^ 32 - 1 }
    requires canvas { desk.canvas ≡ script.now.canvas }
    requires front { IsFront desk.fed script.now.commands }

    // What the names stand for.
    requires script { script.now ≡ J.script }
    requires stamps { unnamed ≡ J.book }
    requires name { blank.name ≡ L.name }
    requires parts { blank.parts ≡ L.parts }
    requires some { 0 < blank.parts }
    ensures painted { IfOk result.0 (λ d. IsPaintedBy script.now d) }
    ensures shows { IfOk result.0 (λ d. SeesRoot (W.seen result.1) d) }
{
    let mut watch = watch;
    watch.owe_all();
    let desk = StampedDesk::new(desk, unnamed);
    let crew: Crew<'a, J, R, G, W> = Crew {
        rt,
        script,
        gate,
        board: Mutex::new(Board::new(alloc, desk, watch, usize::from(workers) + 1)),
        changed: Condvar::new(),
    };
    let mut steps = work_all(&crew, alloc, workers, Steps::<L>::new(blank));
    let Crew { board, .. } = crew;
    let (desk, watch) = board.into_inner().into_parts();
    settle_watched(desk, watch, script, &mut steps)
}

/// Does what is left of a script on the caller's thread, while all is owed.
#[tactic(auto, using(crate::proofs::Roots::owed_shown))]
fn settle_watched<L: Ledger, W: Watching>(
    desk: Desk,
    watch: W,
    script: &Script,
    steps: &mut Steps<L>,
) -> (Result<Desk, NoMemory>, W)
    requires canvas { desk.canvas ≡ script.now.canvas }
    requires front { IsFront desk.fed script.now.commands }
    requires few { length script.now.commands ≤ 2 ^ 32 - 1 }
    ensures painted { IfOk result.0 (λ d. IsPaintedBy script.now d) }
    ensures shows { IfOk result.0 (λ d. SeesRoot (W.seen result.1) d) }
{
    let mut desk = desk;
    let mut watch = watch;
    watch.owe_all();
    match finish(&mut desk, script, steps) {
        Ok(()) => (Ok(desk), watch),
        Err(NoMemory) => (Err(NoMemory), watch),
    }
}

/// A desk for a script, which keeps the script's commands no second time.
///
/// # Errors
/// `NoMemory`.
fn new_desk(alloc: Global, script: &Script, slots: u8) -> Result<Desk, NoMemory>
    requires some { 1 ≤ slots }
    requires few { slots ≤ 17 }
    ensures canvas { IfOk result (λ d. d.canvas ≡ script.now.canvas) }
    ensures front { IfOk result (λ d. IsFront d.fed script.now.commands) }
{
    let _commands = script.commands();
    Desk::following(alloc, script.canvas(), slots, script.list())
}
