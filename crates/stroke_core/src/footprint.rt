//! Where jobs read and write, kept beside them so that they are quickly compared.

ghost use Rattle.std.specs.Prelude.{◌≡◌, ◌≤◌, ◌<◌, ◌+◌, ◌-◌, ◌*◌, ◌&&◌, ◌||◌, ◌++◌, ◌∷◌, [], List, Bool, true, false, not, position, if◌then◌else◌, OnOk, OnErr, length, take, drop, vec_len, vec_capacity};
ghost use Rattle.std.specs.List.{list_any};
ghost use Rattle.geom_core.specs.Areas.{meets};
ghost use Rattle.doc_model.specs.Jobs.{reads, writes, checks};
ghost use Rattle.doc_model.specs.Strokes.{any_meet, is_uni};
ghost use Rattle.stroke_core.specs.Bounds.{Encloses, AreBlocks};
ghost use Rattle.stroke_core.specs.Fed.{plus};
ghost use Rattle.stroke_core.specs.Marks.{Marks, written_or};

use crate::bound::{Bound, any_near, next_near};
use arrayvec::ArrayVec;
use doc_model::{Job, Kind};
use geom_core::Rect;
use std::alloc::{AllocError, Global};
use std::marker::Model;
use std::slice;

/// The rectangles of a job, and whether it is uniquely concurrent.
#[derive(Drop)]
pub(crate) struct Footprint {
    reads: ArrayVec<Rect, 2>,
    /// The rectangle that it writes, where it doesn't write all that it reads.
    written: Option<Rect>,
    unique: bool,
}

impl Model for Footprint {
    ghost use Rattle.stroke_core.specs.Marks.{Marks, written_or};

    ghost Value = { Marks };

    ghost view = { λ f. record { reads = f.reads.items; writes = written_or f.written f.reads.items; unique = f.unique } };
}

impl Footprint {
    ghost use Rattle.stroke_core.specs.Marks.{marks_of, marks_clash};

    pub(crate) fn new(kind: Kind, job: &Job) -> Footprint
        requires { checks job.now ≡ true }
        ensures { result ≡ marks_of (kind, job.now) }
    {
        Footprint {
            reads: job.reads(),
            written: written(job),
            unique: is_unique(kind),
        }
    }

    /// Whether the jobs conflict where they stand in one run.
    fn clashes(&self, other: &Footprint) -> bool
        ensures { result ≡ marks_clash self.now other.now }
    {
        !(self.unique && other.unique) && self.disturbs(other)
    }

    /// Whether one of the jobs writes what the other reads. Where each writes all that it reads, one
    /// way tells of the other.
    fn disturbs(&self, other: &Footprint) -> bool
        ensures { result ≡ (any_meet self.now.writes other.now.reads || any_meet other.now.writes
            self.now.reads) }
    {
        let there = any_meet(self.writes(), other.reads.as_slice());
        if self.writes_all() && other.writes_all() {
            return there;
        }
        there || any_meet(other.writes(), self.reads.as_slice())
    }

    /// Whether it is known to write all that it reads.
    fn writes_all(&self) -> bool
        ensures { result ≡ true → self.now.writes ≡ self.now.reads }
    {
        match self.written {
            Some(_) => false,
            None => true,
        }
    }

    /// The rectangles that the job writes.
    fn writes(&self) -> &[Rect]
        ensures { result.now ≡ self.now.writes }
    {
        match &self.written {
            Some(rect) => slice::from_ref(rect),
            None => self.reads.as_slice(),
        }
    }

    /// A rectangle round all that the job reads and writes.
    fn bound(&self) -> Bound
        ensures { Encloses result self.now }
    {
        Bound::nothing()
            .with_all(self.reads.as_slice())
            .with_all(self.writes())
    }

    /// The place of the first of these that clashes with it.
    fn first_clash(&self, run: &[Footprint]) -> Option<usize>
        ensures { result ≡ position (λ f. marks_clash f self.now) run.now }
    {
        run.iter().position(|earlier| earlier.clashes(self))
    }
}

fn is_unique(kind: Kind) -> bool
    ensures { result ≡ is_uni kind }
{
    kind == Kind::Uni
}

/// The rectangle that the job writes, where it doesn't write all that it reads.
fn written(job: &Job) -> Option<Rect>
    ensures { writes job.now ≡ written_or result (reads job.now) }
{
    match *job {
        Job::Fill { .. } | Job::Dab { .. } | Job::Move { .. } | Job::Track { .. } => None,
        Job::Blur { rect, .. } => Some(rect),
    }
}

/// Whether some rectangle of the one meets some of the other.
fn any_meet(one: &[Rect], other: &[Rect]) -> bool
    ensures { result ≡ any_meet one.now other.now }
{
    one.iter().any(|rect| meets_any(rect, other))
}

fn meets_any(rect: &Rect, others: &[Rect]) -> bool
    ensures { result ≡ list_any (λ b. meets rect.now b) others.now }
{
    others.iter().any(|other| rect.meets(other))
}

/// How many neighbouring jobs of a run have a bound together, and are looked over at once where it
/// is near.
const BLOCK: usize = 64;

/// The footprints of a run of jobs, the edges of a rectangle round each of them, and a rectangle
/// round each block of them.
///
/// Most jobs lie far from each other, and that shows in the edges alone. Most neighbours in a run lie
/// close together, and then that shows for a whole block at once.
#[derive(Drop)]
pub(crate) struct Footprints {
    exact: Vec<Footprint>,
    lefts: Vec<u16>,
    /// The left edges as unique jobs see them: those of other unique jobs lie outside the world.
    lefts_for_unique: Vec<u16>,
    rights: Vec<u16>,
    tops: Vec<u16>,
    bottoms: Vec<u16>,
    blocks: Vec<Bound>,
    /// The blocks as unique jobs see them: without other unique jobs.
    blocks_for_unique: Vec<Bound>,
}

impl Model for Footprints {
    ghost use Rattle.std.specs.Prelude.{List};
    ghost use Rattle.stroke_core.specs.Marks.{Marks};
    ghost use Rattle.stroke_core.specs.Bounds.{IsLaidOut};

    ghost Value = { List Marks };

    ghost view = { λ f. f.exact.items };

    ghost invariant = { λ f. IsLaidOut f.exact.items f.lefts.items f.lefts_for_unique.items f.rights.items f.tops.items f.bottoms.items f.blocks.items f.blocks_for_unique.items };
}

impl Footprints {
    ghost use Rattle.stroke_core.specs.Marks.{marks_clash};

    pub(crate) fn new(alloc: Global) -> Footprints
        ensures { result ≡ [] }
    {
        Footprints {
            exact: Vec::new(alloc),
            lefts: Vec::new(alloc),
            lefts_for_unique: Vec::new(alloc),
            rights: Vec::new(alloc),
            tops: Vec::new(alloc),
            bottoms: Vec::new(alloc),
            blocks: Vec::new(alloc),
            blocks_for_unique: Vec::new(alloc),
        }
    }

    /// Adds one at the end.
    pub(crate) fn push(&mut self, footprint: Footprint) -> Result<(), AllocError>
        ensures ok { OnOk result (self.new ≡ self.old ++ footprint ∷ []) }
        ensures err { OnErr result (self.new ≡ self.old) }
    {
        let bound = footprint.bound();
        let for_unique = if footprint.unique {
            Bound::nothing()
        } else {
            bound
        };
        self.exact.reserve(1)?;
        self.lefts.reserve(1)?;
        self.lefts_for_unique.reserve(1)?;
        self.rights.reserve(1)?;
        self.tops.reserve(1)?;
        self.bottoms.reserve(1)?;
        self.blocks.reserve(1)?;
        self.blocks_for_unique.reserve(1)?;
        let len = self.exact.len();
        add_to_blocks(&mut self.blocks, len, bound);
        add_to_blocks(&mut self.blocks_for_unique, len, for_unique);
        push_reserved(&mut self.exact, footprint);
        push_reserved(&mut self.lefts, bound.left);
        push_reserved(&mut self.lefts_for_unique, for_unique.left);
        push_reserved(&mut self.rights, bound.right);
        push_reserved(&mut self.tops, bound.top);
        push_reserved(&mut self.bottoms, bound.bottom);
        Ok(())
    }

    /// Forgets all of them.
    pub(crate) fn clear(&mut self)
        ensures { self.new ≡ [] }
    {
        self.exact.clear();
        self.lefts.clear();
        self.lefts_for_unique.clear();
        self.rights.clear();
        self.tops.clear();
        self.bottoms.clear();
        self.blocks.clear();
        self.blocks_for_unique.clear();
    }

    /// The place of the first that clashes with a new one.
    pub(crate) fn first_clash(&self, new: &Footprint) -> Option<usize>
        ensures { result ≡ position (λ f. marks_clash f new.now) self.now }
    {
        let bound = new.bound();
        let blocks = self.blocks_for(new.unique);
        let mut i = next_near(blocks, 0, bound);
        while i < blocks.len() {
            let found = self.first_in_block(i, new, bound);
            if found.is_some() {
                return found;
            }
            i = next_near(blocks, i + 1, bound);
        }
        None
    }

    /// The bounds of the blocks as a new job sees them.
    fn blocks_for(&self, unique: bool) -> &[Bound]
        ensures { AreBlocks unique self.now result.now }
    {
        if unique {
            self.blocks_for_unique.as_slice()
        } else {
            self.blocks.as_slice()
        }
    }

    /// The place of the first in a block that clashes with a new one.
    fn first_in_block(&self, i: usize, new: &Footprint, bound: Bound) -> Option<usize>
        requires inside { BLOCK * i < length self.now }
        requires bound { Encloses bound new.now }
        ensures { result ≡ plus (BLOCK * i) (position (λ f. marks_clash f new.now)
            (take BLOCK (drop (BLOCK * i) self.now))) }
    {
        let len = self.exact.len();
        let from = i * BLOCK;
        let to = from + BLOCK.min(len - from);
        self.first_within(from, to, new, bound)
    }

    /// The place of the first of a row of neighbours that clashes with a new one.
    fn first_within(&self, from: usize, to: usize, new: &Footprint, bound: Bound) -> Option<usize>
        requires ascending { from ≤ to }
        requires inside { to ≤ length self.now }
        requires bound { Encloses bound new.now }
        ensures { result ≡ plus from (position (λ f. marks_clash f new.now)
            (take (to - from) (drop from self.now))) }
    {
        let lefts = if new.unique {
            &self.lefts_for_unique
        } else {
            &self.lefts
        };
        if !any_near(
            lefts,
            &self.rights,
            &self.tops,
            &self.bottoms,
            from,
            to,
            bound,
        ) {
            return None;
        }
        let place = new.first_clash(&self.exact[from..to])?;
        Some(from + place)
    }
}

/// Adds the bound of the job at place `len` to that of the last block, or as a new one where the
/// others are full.
fn add_to_blocks(blocks: &mut Vec<Bound>, len: usize, bound: Bound)
    requires room { vec_len blocks.old < vec_capacity blocks.old }
    requires enough { len ≤ BLOCK * length blocks.old.items }
    requires needed { BLOCK * length blocks.old.items < len + BLOCK }
    ensures { (unique_out : Bool) (marks : List Marks) (m : Marks) → length marks ≡ len
        → AreBlocks unique_out marks blocks.old.items → ((unique_out && m.unique) ≡ false
        → Encloses bound m) → AreBlocks unique_out (marks ++ m ∷ []) blocks.new.items }
{
    if len % BLOCK == 0 {
        push_reserved(blocks, bound);
        return;
    }
    let last = blocks.len() - 1;
    blocks[last] = blocks[last].joined(bound);
}

/// Adds one where there is room for it.
pub(crate) fn push_reserved<T: Drop>(items: &mut Vec<T>, x: T)
    requires { vec_len items.old < vec_capacity items.old }
    ensures { items.new.items ≡ items.old.items ++ x ∷ [] }
{
    match items.push(x) {
        Ok(()) => {}
        Err(_) => unreachable!(),
    }
}
