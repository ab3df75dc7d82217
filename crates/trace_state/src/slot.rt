//! What is at work in the slots.

ghost use Rattle.std.specs.Prelude.{◌≡◌, slice_set};
ghost use Rattle.std.specs.List.{list_any, list_all};
ghost use Rattle.geom_core.specs.Keys.{IsWorldKey};
ghost use Rattle.trace_state.specs.Slots.{is_free, is_painter, is_walker, meets_walker, blocks, published_in, composed_in, SlotFollows};

use crate::job::OutlinedJob;
use crate::walk::OutlinedWalk;
use doc_model::{Job, Kind};
use entry_queue::{excludes, kind_at};
use geom_core::{NoMemory, Rect, TileKey};

/// A slot: free, or with a job or a walk at work.
#[derive(Drop)]
pub enum Slot {
    /// Nothing is at work there.
    Free,
    /// A job of the stroke at the head.
    Paints(OutlinedJob),
    /// A walk that composes a patch.
    Walks(OutlinedWalk),
}

impl Slot {
    /// Whether nothing is at work there.
    pub fn is_free(&self) -> bool
        ensures { result ≡ is_free self.now }
    {
        matches!(self, Slot::Free)
    }

    /// Whether a job is at work there.
    pub fn is_painter(&self) -> bool
        ensures { result ≡ is_painter self.now }
    {
        matches!(self, Slot::Paints(_))
    }

    /// Whether a walk is at work there.
    pub fn is_walker(&self) -> bool
        ensures { result ≡ is_walker self.now }
    {
        matches!(self, Slot::Walks(_))
    }

    /// Whether a job of that kind may not run beside what stands in the slot, by the jobs of its stroke.
    pub fn blocks(&self, jobs: &[(Kind, Job)], kind: Kind) -> bool
        ensures { result ≡ blocks jobs.now kind self.now }
    {
        match self {
            Slot::Paints(painter) => excludes(kind, kind_at(jobs, painter.index())),
            _ => false,
        }
    }

    /// Whether it is a walk whose patch meets the rectangle.
    pub fn meets(&self, rect: &Rect) -> bool
        ensures { result ≡ meets_walker rect.now self.now }
    {
        match self {
            Slot::Walks(walker) => rect.meets(&walker.patch().rect),
            _ => false,
        }
    }

    /// Publishes a tile of the job that stands there. False where none does, or it lacks no such tile.
    pub fn publish(&mut self, key: TileKey) -> Result<bool, NoMemory>
        requires { IsWorldKey key }
        ensures { SlotFollows result (published_in key self.old) self.old self.new }
    {
        match self {
            Slot::Paints(painter) => painter.publish(key),
            _ => Ok(false),
        }
    }

    /// Composes a tile of a group by the walk that stands there. False where none does, or it lacks no such tile.
    pub fn put(&mut self, group: u16, key: TileKey) -> Result<bool, NoMemory>
        requires { IsWorldKey key }
        ensures { SlotFollows result (composed_in group key self.old) self.old self.new }
    {
        match self {
            Slot::Walks(walker) => walker.publish(group, key),
            _ => Ok(false),
        }
    }
}

/// Puts that into the slot of that place, from 0, where there is one.
pub fn fill(slots: &mut [Slot], place: u8, slot: Slot)
    ensures { slots.new ≡ slice_set slots.old place slot }
{
    let i = place as usize;
    if i < slots.len() {
        slots[i] = slot;
    }
}

/// Whether all slots are free.
pub fn all_free(slots: &[Slot]) -> bool
    ensures { result ≡ list_all is_free slots.now }
{
    slots.iter().all(|s| s.is_free())
}

/// Whether a job is at work.
pub fn some_painter(slots: &[Slot]) -> bool
    ensures { result ≡ list_any is_painter slots.now }
{
    slots.iter().any(|s| s.is_painter())
}

/// Whether a walk is at work.
pub fn some_walker(slots: &[Slot]) -> bool
    ensures { result ≡ list_any is_walker slots.now }
{
    slots.iter().any(|s| s.is_walker())
}

/// Whether a walk is at work whose patch meets the rectangle.
pub fn some_meets(slots: &[Slot], rect: &Rect) -> bool
    ensures { result ≡ list_any (meets_walker rect.now) slots.now }
{
    slots.iter().any(|s| s.meets(rect))
}

/// Whether a job of that kind may not run beside what is at work, by the jobs of its stroke.
pub fn some_blocks(slots: &[Slot], jobs: &[(Kind, Job)], kind: Kind) -> bool
    ensures { result ≡ list_any (blocks jobs.now kind) slots.now }
{
    slots.iter().any(|s| s.blocks(jobs, kind))
}
