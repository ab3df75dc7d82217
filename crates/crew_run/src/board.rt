//! What lies under the lock.

ghost use Rattle.std.specs.Prelude.{◌≡◌};
ghost use Rattle.script_text.specs.Script.{Contents};
ghost use Rattle.crew_run.specs.Front.{IsFront, nothing};
ghost use Rattle.crew_run.specs.Watched.{SeesRoot};

use crate::effort::{ALONE, WORTH_TWO, load_of};
use crate::feeding::feed_ahead;
use crate::pieces::{Piece, Walking};
use crate::watching::Watching;
use crate::work::{Tiles, WalkRows, Work};
use desk_core::{Desk, Ended, Published, Taken};
use geom_core::{NoMemory, TileKey};
use memento_core::Steps;
use script_text::Script;
use stamped_desk::{StampNaming, StampedDesk, StampedPainting, StampedTiles, StampedWalk};
use std::alloc::Global;
use std::marker::{Brand, PhantomData};
use std::sync::ledger::Ledger;
use std::sync::{Arc, Wait};
use walker_core::Composed;

/// Which script is painted. Each call of the crew picks it.
pub(crate) trait Following {
    ghost script: { Contents };
}

impl Following for Brand {
    ghost script = { nothing };
}

/// A desk whose canvas is the script's and whose commands begin the script, who watches it and shows what its
/// root shows, and what is known of the threads.
#[derive(Drop)]
pub(crate) struct Board<J: Following + StampNaming, W: Watching> {
    alloc: Global,
    desk: StampedDesk<J>,
    watch: W,
    /// The caller's thread and those of the workers.
    threads: usize,
    /// The jobs that several threads paint.
    pieces: Vec<Piece<J>>,
    /// How many jobs were taken and not published.
    jobs: usize,
    /// The walks that were taken and aren't ended.
    walks: Vec<Walking<J>>,
    /// Whether another job could start beside the one that was taken last.
    run_goes_on: bool,
    /// How many threads sleep.
    asleep: usize,
    /// Whether the threads are to stop: all is done, or it can't be done here.
    is_over: bool,
    of: PhantomData<J>,
    ghost canvas_is: { desk.canvas ≡ J.script.canvas },
    ghost front: { IsFront desk.fed J.script.commands },
    ghost shows: { SeesRoot (W.seen watch) desk },
}

/// What is to be done with the tiles that a thread brought.
#[derive(Drop)]
pub(crate) enum Brought<J: StampNaming> {
    /// Nothing: some tiles of the job are missing.
    Kept,
    /// All tiles are there: the gate is entered, and then they are published.
    All(StampedTiles<J>),
    /// The threads stop.
    Over,
}

/// One look at the board.
#[derive(Drop)]
pub(crate) enum Next<J: StampNaming> {
    Work(Work<J>),
    /// An event was made; more may be there.
    Again,
    /// Others have all the work that can be done now.
    Wait,
    /// The threads stop.
    Stop,
}

impl<J: Following + StampNaming, W: Watching> Board<J, W> {
    /// A board on which nothing is at work.
    pub(crate) fn new(alloc: Global, desk: StampedDesk<J>, watch: W, threads: usize) -> Board<J, W>
        requires canvas { desk.canvas ≡ J.script.canvas }
        requires front { IsFront desk.fed J.script.commands }
        requires shows { SeesRoot (W.seen watch) desk }
    {
        Board {
            alloc,
            desk,
            watch,
            threads,
            pieces: Vec::new(alloc),
            jobs: 0,
            walks: Vec::new(alloc),
            run_goes_on: false,
            asleep: 0,
            is_over: false,
            of: PhantomData,
        }
    }

    /// The desk, and who watched it.
    pub(crate) fn into_parts(self) -> (Desk, W)
        ensures canvas { result.0.canvas ≡ J.script.canvas }
        ensures front { IsFront result.0.fed J.script.commands }
    {
        let Board { desk, watch, .. } = self;
        (desk.into_desk(), watch)
    }

    /// Tiles of work under way, or new work, or one event. Where that can't be done, the threads are to stop.
    pub(crate) fn look<L: Ledger>(&mut self, script: &Script, steps: &mut Steps<L>) -> Next<J>
        requires { script.now ≡ J.script }
    {
        if self.is_over {
            return Next::Stop;
        }
        let next = match self.join() {
            Ok(Some(work)) => Ok(Next::Work(work)),
            Ok(None) => self.take(script, steps),
            Err(NoMemory) => Err(NoMemory),
        };
        match next {
            Ok(Next::Stop) | Err(NoMemory) => {
                self.is_over = true;
                Next::Stop
            }
            Ok(next) => next,
        }
    }

    /// Tiles of work under way.
    fn join(&mut self) -> Result<Option<Work<J>>, NoMemory> {
        for piece in &mut self.pieces {
            if piece.ranges.is_open() {
                let tiles = piece.give()?;
                let leaves = piece.ranges.is_open();
                return Ok(Some(Work::Paint { tiles, leaves }));
            }
        }
        self.join_walk()
    }

    /// Tiles of a walk under way.
    fn join_walk(&mut self) -> Result<Option<Work<J>>, NoMemory> {
        for walk in &mut self.walks {
            if walk.ranges.is_open() {
                let rows = walk.give()?;
                let leaves = walk.ranges.is_open();
                return Ok(Some(Work::Compose { rows, leaves }));
            }
        }
        Ok(None)
    }

    /// New work, or one event. While jobs are at work for which the head waits nothing is composed: what they
    /// change would be composed again. Small jobs are painted in place where the caller is alone; where there
    /// are workers, each job is painted outside the lock.
    #[tactic(auto, using(crate::proofs::Roots::still_shown))]
    fn take<L: Ledger>(
        &mut self,
        script: &Script,
        steps: &mut Steps<L>,
    ) -> Result<Next<J>, NoMemory>
        requires { script.now ≡ J.script }
    {
        if !feed_ahead(&mut self.desk, script) {
            return Err(NoMemory);
        }
        if self.jobs > 0 && !self.desk.desk().head_may_go() {
            return Ok(Next::Wait);
        }
        if self.threads == 1 && self.desk.paint_small()?.is_some() {
            return Ok(Next::Again);
        }
        self.begin(steps)
    }

    /// The work that the desk gives, or one event that it made.
    fn begin<L: Ledger>(&mut self, steps: &mut Steps<L>) -> Result<Next<J>, NoMemory> {
        let (taken, stamp) = self.desk.take(steps)?;
        match taken {
            Taken::Paint(ticket) => {
                let load = load_of(&ticket.work, &ticket.shot);
                let job = StampedPainting::new(self.alloc, ticket, stamp)?;
                self.begin_job(job, load)
            }
            Taken::Walk(ticket) => self.begin_walk(StampedWalk::new(ticket, stamp)),
            Taken::Did => Ok(Next::Again),
            Taken::Idle if self.jobs > 0 || !self.walks.is_empty() => Ok(Next::Wait),
            Taken::Idle | Taken::Settled => Ok(Next::Stop),
        }
    }

    /// Some tiles of a new job of so much work, or all.
    fn begin_job(&mut self, job: StampedPainting<J>, load: u64) -> Result<Next<J>, NoMemory> {
        self.jobs = self.jobs.saturating_add(1);
        let job = Arc::new(self.alloc, job)?;
        if Piece::is_worth(&job, load, self.threads) {
            return self.begin_piece(job);
        }
        let is_first = !self.run_goes_on;
        self.run_goes_on = self.desk.desk().head_may_go();
        let leaves = self.run_goes_on && (is_first || load > WORTH_TWO);
        let to = job.tile_count();
        let tiles = Tiles {
            job,
            from: 0,
            to,
            are_all: true,
        };
        Ok(Next::Work(Work::Paint { tiles, leaves }))
    }

    /// The first tiles of a new job that several threads paint.
    fn begin_piece(&mut self, job: Arc<StampedPainting<J>, Global>) -> Result<Next<J>, NoMemory> {
        self.run_goes_on = self.desk.desk().head_may_go();
        let mut piece = Piece::new(self.alloc, job, self.threads)?;
        if !piece.ranges.is_open() {
            return Err(NoMemory);
        }
        let tiles = piece.give()?;
        let leaves = piece.ranges.is_open();
        self.pieces.push(piece)?;
        Ok(Next::Work(Work::Paint { tiles, leaves }))
    }

    /// The first tiles of a new walk. Something worth another thread is left where tiles of it are, or where
    /// it is much work and another walk may start beside it.
    fn begin_walk(&mut self, walk: StampedWalk<J>) -> Result<Next<J>, NoMemory> {
        let is_large = walk.ticket().inputs.load() > ALONE;
        let mut walk = Walking::new(Arc::new(self.alloc, walk)?, self.threads);
        if !walk.ranges.is_open() {
            return Err(NoMemory);
        }
        let rows = walk.give()?;
        let leaves = walk.ranges.is_open() || (is_large && self.desk.desk().walk_place().is_some());
        self.walks.push(walk)?;
        Ok(Next::Work(Work::Compose { rows, leaves }))
    }

    /// Takes what was painted of some tiles of a job.
    pub(crate) fn bring(&mut self, serial: u64, made: &mut StampedTiles<J>) -> Brought<J> {
        let Some(i) = self.pieces.iter().position(|p| p.serial() == serial) else {
            return Brought::Over;
        };
        match self.pieces[i].gather(made) {
            Ok(false) => Brought::Kept,
            Ok(true) => {
                let piece = self.pieces.swap_remove(i);
                Brought::All(piece.into_made())
            }
            Err(NoMemory) => Brought::Over,
        }
    }

    /// Publishes all tiles of a job, and ends it. Where that can't be done the threads are to stop.
    #[tactic(auto, using(crate::proofs::Roots::still_shown, crate::proofs::Roots::commit_root))]
    pub(crate) fn put_job(&mut self, made: &StampedTiles<J>) {
        self.jobs = self.jobs.saturating_sub(1);
        match self.desk.commit(made) {
            Ok(Published::Stored) => {}
            Ok(Published::Nothing) | Err(NoMemory) => self.is_over = true,
        }
    }

    /// Publishes tiles of a walk, of all its groups, and ends it where they are its last. Where that can't be
    /// done the threads are to stop.
    #[tactic(auto, using(crate::proofs::Roots::same_shown))]
    pub(crate) fn put_rows<R: Wait>(&mut self, rt: &R, rows: &WalkRows<J>, composed: &Composed<'_>)
        requires { composed.now.readings ≡ rows.now.walk.value.inputs }
    {
        let rect = rows.walk.ticket().inputs.patch().rect;
        let to = rows.to.min(rect.tile_count() as usize);
        for i in rows.from..to {
            if !self.put_row(rows, composed, rect.tile_at(i as u32)) {
                self.is_over = true;
                return;
            }
        }
        self.watch.publish(rt);
        self.tell_done(rows);
    }

    /// Publishes a tile of a walk, of all its groups, and tells who watches. `false` where that can't be done.
    #[tactic(auto, using(crate::proofs::Roots::row_shown))]
    fn put_row(&mut self, rows: &WalkRows<J>, composed: &Composed<'_>, key: TileKey) -> bool
        requires { composed.now.readings ≡ rows.now.walk.value.inputs }
    {
        let published = self.desk.publish_row(&rows.walk, composed, key);
        self.watch.composed(self.desk.desk(), key);
        matches!(published, Ok(Published::Stored))
    }

    /// Ends a walk where these were its last tiles.
    #[tactic(auto, using(crate::proofs::Roots::still_shown, crate::proofs::Roots::end_root, crate::proofs::Roots::same_root))]
    fn tell_done(&mut self, rows: &WalkRows<J>) {
        let slot = rows.walk.ticket().slot;
        let Some(i) = self.walks.iter().position(|w| w.serial() == slot.serial) else {
            self.is_over = true;
            return;
        };
        if self.walks[i].tell_done(rows.to.saturating_sub(rows.from)) {
            let _ended = self.walks.swap_remove(i);
            if self.desk.end(slot) == Ended::Nothing {
                self.is_over = true;
            }
        }
    }

    /// The threads are to stop.
    pub(crate) fn give_up(&mut self) {
        self.is_over = true;
    }

    /// A thread goes to sleep.
    pub(crate) fn sleeps(&mut self) {
        self.asleep = self.asleep.saturating_add(1);
    }

    /// A thread woke.
    pub(crate) fn wakes(&mut self) {
        self.asleep = self.asleep.saturating_sub(1);
    }

    /// Whether a thread sleeps.
    pub(crate) fn has_sleeper(&self) -> bool {
        self.asleep > 0
    }
}
