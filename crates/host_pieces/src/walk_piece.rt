//! A walk that a thread holds.

ghost use Rattle.std.specs.Prelude.{◌≡◌, ◌≤◌, ◌↔◌, IsTrue, IsSome, IfSome, IfOk, OnErr, OnOk, Ok, None, [], length};
ghost use Rattle.walker_core.specs.Composing.{tiles_in};
ghost use Rattle.host_pieces.specs.Walks.{AreFirstRows, HasAllRows, IsParted, IsWhole, WalksOn, area_in, patch_keys, share_of, share_size as size_by, tiles_worth, walk_work};

use crate::held::Held;
use crate::part::Part;
use desk_core::WalkTicket;
use geom_core::{NoMemory, Rect};
use std::alloc::Global;
use std::marker::Model;
use walker_core::{Inputs, Rows};

/// A part is worth another thread where so many points are laid for it.
const WORTH: u64 = 15_000;

/// A walk with what it reads, some of the tiles of its patch, and what is composed of them: the first ones.
#[derive(Drop)]
pub struct WalkPiece {
    pub(crate) held: Held,
    pub(crate) part: Part,
    pub(crate) rows: Rows,
    /// About how many points are laid to compose the whole patch, or 0 where there was no memory for parts of the walk.
    /// It decides what is worth a thread, and no clause says how near it is.
    load: u64,
}

impl Model for WalkPiece {
    ghost use Rattle.host_pieces.specs.Walks.{WalkWork, walk_work_code};

    ghost Value = { WalkWork };

    ghost coded = { walk_work_code };

    ghost use Rattle.walker_core.specs.Composing.{tiles_in};
    ghost use Rattle.host_pieces.specs.Walks.{IsPartOfWalk, walk_work};

    ghost view = { λ w. walk_work w.held w.part.keys (tiles_in w.rows) w.load };

    ghost invariant = { λ w. IsPartOfWalk w.held w.part w.rows };
}

impl WalkPiece {
    /// A walk with all tiles of its patch, of which nothing is composed.
    pub fn new(alloc: Global, ticket: WalkTicket) -> WalkPiece
        ensures { result ≡ walk_work ticket (patch_keys ticket) [] result.load }
    {
        let part = Part::whole(ticket.inputs.patch().rect);
        let held = Held::new(alloc, ticket);
        let load = load_of(&held);
        WalkPiece {
            held,
            part,
            rows: Rows::none(alloc),
            load,
        }
    }

    /// What the patch has of the least rectangle round its tiles.
    pub(crate) fn area(&self) -> Option<Rect>
        ensures { result ≡ area_in self.now }
    {
        self.part.area()
    }

    /// Whether it has all tiles of its walk's patch.
    pub(crate) fn is_whole(&self) -> bool
        ensures { IsTrue result ↔ IsWhole self.now }
    {
        self.part.is_whole()
    }

    /// Composes all of its tiles that aren't composed yet.
    ///
    /// # Errors
    /// `NoMemory`; what was composed stays.
    pub(crate) fn work(&mut self, alloc: Global) -> Result<(), NoMemory>
        ensures on { WalksOn self.old self.new }
        ensures done { OnOk result (HasAllRows self.new) }
    {
        let inputs = &self.held.ticket().inputs;
        compose_rest(alloc, inputs, &self.part, &mut self.rows)
    }

    /// Whether all of its tiles are composed.
    pub(crate) fn is_done(&self) -> bool
        ensures { IsTrue result ↔ HasAllRows self.now }
    {
        self.rows.len() >= self.part.len() as usize
    }

    /// Gives its last tiles to another piece: one of so many equal shares, or what is worth a thread where that is
    /// more. None where there are fewer than two shares, some of its tiles are composed, or that is more than half of
    /// them.
    ///
    /// # Errors
    /// `NoMemory`; all is as it was.
    pub(crate) fn share(
        &mut self,
        alloc: Global,
        shares: u32,
    ) -> Result<Option<WalkPiece>, NoMemory>
        ensures parted { IfOk result (λ o. IfSome o (IsParted shares self.old self.new)) }
        ensures none { result ≡ Ok None → share_of shares self.old ≡ None }
        ensures same { result ≡ Ok None → self.new ≡ self.old }
        ensures err { OnErr result (IsSome (share_of shares self.old)) }
        ensures kept { OnErr result (self.new ≡ self.old) }
    {
        let Some(count) = self.share_len(shares) else {
            return Ok(None);
        };
        let held = self.held.share()?;
        Ok(Some(WalkPiece {
            held,
            part: self.part.split_off(count),
            rows: Rows::none(alloc),
            load: self.load,
        }))
    }

    /// How many tiles it gives away.
    fn share_len(&self, shares: u32) -> Option<u32>
        ensures { result ≡ share_of shares self.now }
    {
        if shares < 2 || self.rows.len() > 0 {
            return None;
        }
        let size = self.share_size(shares);
        if size > u64::from(self.part.len() / 2) {
            return None;
        }
        Some(size as u32)
    }

    /// How many tiles one of so many equal shares has, but no fewer than are worth a thread.
    fn share_size(&self, shares: u32) -> u64
        requires { 2 ≤ shares }
        ensures { result ≡ size_by shares self.now }
    {
        self.worth().max(u64::from(self.part.len() / shares).max(1))
    }

    /// About how many tiles of its walk are worth a thread.
    fn worth(&self) -> u64
        ensures { result ≡ tiles_worth self.now }
    {
        let rect = self.held.ticket().inputs.patch().rect;
        WORTH * u64::from(rect.tile_count()) / self.load.max(1)
    }
}

/// About how many points are laid to compose a walk's patch, or 0 where its ticket is for one piece alone.
fn load_of(held: &Held) -> u64 {
    if held.is_for_one() {
        return 0;
    }
    held.ticket().inputs.load()
}

/// Composes the tiles of a part of a walk of which the first are there already.
///
/// # Errors
/// `NoMemory`; what was composed stays.
fn compose_rest(
    alloc: Global,
    inputs: &Inputs,
    part: &Part,
    rows: &mut Rows,
) -> Result<(), NoMemory>
    requires { AreFirstRows inputs.now part.now.keys rows.old }
    ensures first { AreFirstRows inputs.now part.now.keys rows.new }
    ensures count { length (tiles_in rows.old) ≤ length (tiles_in rows.new) }
    ensures all { OnOk result (tiles_in rows.new ≡ part.now.keys) }
{
    for i in rows.len()..part.len() as usize {
        rows.compose(alloc, inputs, part.tile_at(i as u32))?;
    }
    Ok(())
}
