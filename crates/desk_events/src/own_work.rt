//! The work in a slot is done here, as a thread would do it that took its ticket.

ghost use Rattle.std.specs.Prelude.{◌≡◌, true, OnOk, OnErr, IfSome, IfNone};
ghost use Rattle.std.specs.List.{list_all};
ghost use Rattle.machine_model.specs.State.{is_free};
ghost use Rattle.machine_model.specs.Event.{Publish};
ghost use Rattle.machine_model.specs.Step.{Step};
ghost use Rattle.machine_model.specs.Sound.{IsOrderly};
ghost use Rattle.desk_state.specs.Enabled.{Enabled};
ghost use Rattle.desk_state.specs.Settles.{Settles, GoesOn};
ghost use Rattle.desk_events.specs.OwnWork.{IsBusy, IsLack, WalkLacks, WalksOn};

use crate::machine::Machine;
use desk_state::Work;
use geom_core::{NoMemory, TileKey};
use slot_work::{compose_own, next_pair, next_tile, paint_own};

/// What the work in a slot lacks.
#[derive(Clone, Copy)]
pub enum Lack {
    /// A tile of a job isn't published.
    Tile(TileKey),
    /// A tile of a walk isn't published of all its groups.
    Groups(TileKey),
    /// All tiles of a job are published.
    JobEnd,
    /// All pairs of a walk are published.
    WalkEnd,
}

impl Machine {
    /// The first place at which something is at work. None exactly where all are free.
    pub fn busy_place(&self) -> Option<u8>
        ensures some { IfSome result (IsBusy self.now) }
        ensures none { IfNone result (list_all is_free self.now.slots ≡ true) }
        ensures known { IsOrderly self.now }
    {
        for place in 0..self.slots.count() {
            if self.slots.work(place).is_some() {
                return Some(place);
            }
        }
        None
    }

    /// What the work in a slot lacks.
    pub fn lack_at(&self, place: u8) -> Lack
        requires { IsBusy self.now place }
        ensures { IsLack self.now place result }
    {
        match self.slots.work(place) {
            Some(Work::Paint(painter)) => match next_tile(painter) {
                Some(key) => Lack::Tile(key),
                None => Lack::JobEnd,
            },
            Some(Work::Walk(walker)) => match next_pair(walker) {
                Some((_group, key)) => Lack::Groups(key),
                None => Lack::WalkEnd,
            },
            None => unreachable!(),
        }
    }

    /// Paints a tile of the job in a slot from what the job was started with, and publishes it.
    ///
    /// # Errors
    /// `NoMemory`; all is as it was.
    pub fn paint_at(&mut self, place: u8, key: TileKey) -> Result<(), NoMemory>
        requires { Enabled self.old (Publish place key) }
        ensures ok { OnOk result (Step self.old (Publish place key) self.new) }
        ensures err { OnErr result (self.new ≡ self.old) }
    {
        match self.slots.busy_mut(place) {
            Some(busy) => match &mut busy.work {
                Work::Paint(painter) => paint_own(self.alloc, &mut self.store, painter, key),
                Work::Walk(_) => unreachable!(),
            },
            None => unreachable!(),
        }
    }

    /// Composes a tile of the walk in a slot from what the walk reads, and publishes it of each group of
    /// which it isn't published.
    ///
    /// # Errors
    /// `NoMemory`; it is published of some of the groups, from the first on, or of none.
    pub fn compose_at(&mut self, place: u8, key: TileKey) -> Result<(), NoMemory>
        requires { WalkLacks self.old place key }
        ensures ok { OnOk result (GoesOn self.old self.new) }
        ensures err { OnErr result (Settles self.old self.new) }
        ensures walks { WalksOn self.old self.new }
    {
        match self.slots.busy_mut(place) {
            Some(busy) => match &mut busy.work {
                Work::Walk(walker) => compose_own(self.alloc, &mut self.filmed, walker, key),
                Work::Paint(_) => unreachable!(),
            },
            None => unreachable!(),
        }
    }
}
