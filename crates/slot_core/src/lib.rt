//! The slots in which workers are at work.
#![tactic(auto)]

ghost use Rattle.std.specs.Prelude.{◌≡◌, ◌≤◌, ◌<◌, None, Some, IfOk, replicate, length, is_none, slice_get, slice_set};
ghost use Rattle.std.specs.List.{position};
ghost use Rattle.std.specs.Option.{option_copied, option_copied_mut};
ghost use Rattle.std.specs.Borrow.{sem};

use arrayvec::ArrayVec;
use geom_core::{NoMemory, Rect};
use std::alloc::Global;
use std::marker::Model;

/// What is at work in a slot, and the rectangle that it walks, if it is a walker.
#[derive(Drop)]
pub struct Busy<W> {
    /// The work.
    pub work: W,
    /// What is composed anew, if the work is a walk.
    pub walker: Option<Rect>,
}

/// The slots of a crew of workers, 1 to 17, each free or busy. They are named by their places, from 0.
#[derive(Drop)]
pub struct Slots<W> {
    places: Vec<Option<Busy<W>>>,
}

impl<W> Model for Slots<W> {
    ghost use Rattle.std.specs.Prelude.{◌≤◌, List, Option, length};
    ghost use Rattle.std.specs.Coded.{coded_list, coded_option};
    ghost use Rattle.slot_core.specs.Busy.{busy_code};
    ghost use Rattle.slot_core.specs.declared.Busy.{Busy};

    ghost Value = { List (Option (Busy W)) };

    ghost coded = { coded_list (coded_option (busy_code W.code)) };

    ghost view = { λ s. s.places.items };

    ghost invariant = { λ s. (1 ≤ length s.places.items) × (length s.places.items ≤ 17) };
}

impl<W: Drop> Slots<W> {
    ghost use Rattle.slot_core.specs.Busy.{busy, busy_at, work_at, walkers};
    ghost use Rattle.slot_core.specs.Lends.{LendsBusy};

    /// So many free slots, 1 to 17. All memory is taken here.
    pub fn new(alloc: Global, n: u8) -> Result<Slots<W>, NoMemory>
        requires some { 1 ≤ n }
        requires few { n ≤ 17 }
        ensures { IfOk result (λ s. s ≡ replicate n None) }
    {
        let mut places = Vec::with_capacity(alloc, n as usize)?;
        for _ in 0..n {
            places.push(None)?;
        }
        Ok(Slots { places })
    }

    /// How many slots there are, 1 to 17.
    pub fn count(&self) -> u8
        ensures value { result ≡ length self.now }
        ensures some { 1 ≤ result }
        ensures few { result ≤ 17 }
    {
        self.places.len() as u8
    }

    /// The first free place. None exactly where all are busy.
    pub fn free(&self) -> Option<u8>
        ensures { result ≡ position is_none self.now }
    {
        for i in 0..self.places.len() {
            if self.places[i].is_none() {
                return Some(i as u8);
            }
        }
        None
    }

    /// Puts work into a free place, with the rectangle that it walks, if it is a walker. No memory.
    pub fn put(&mut self, place: u8, work: W, walker: Option<Rect>)
        requires { slice_get self.old place ≡ Some None }
        ensures { self.new ≡ slice_set self.old place (Some (busy work walker)) }
    {
        self.places[place as usize] = Some(Busy { work, walker });
    }

    /// The work at a place. None exactly where the place is free or isn't there.
    pub fn work(&self, place: u8) -> Option<&W>
        ensures { option_copied result ≡ work_at place self.now }
    {
        match self.places.get(place as usize) {
            Some(Some(busy)) => Some(&busy.work),
            Some(None) | None => None,
        }
    }

    /// The work at a place, lent with the rectangle that it walks, to be changed there. None exactly where the place
    /// is free or isn't there; then all stays.
    pub fn busy_mut(&mut self, place: u8) -> Option<&mut Busy<W>>
        ensures* lends { sem 𝓛 (LendsBusy W.row self.entry place result) }
        ensures busy { option_copied_mut result ≡ busy_at place self.old }
    {
        self.places.get_mut(place as usize)?.as_mut()
    }

    /// Takes the work from a place, which is free afterwards. None exactly where the place is free or isn't there;
    /// then all stays.
    pub fn clear(&mut self, place: u8) -> Option<W>
        ensures work { result ≡ work_at place self.old }
        ensures left { self.new ≡ slice_set self.old place None }
    {
        let busy = self.places.get_mut(place as usize)?.take()?;
        Some(busy.work)
    }

    /// The rectangles of the walkers, from the first place on. No memory.
    pub fn running(&self) -> ArrayVec<Rect, 17>
        ensures { result.items ≡ walkers self.now }
    {
        let mut running = ArrayVec::new();
        for slot in self.places.iter() {
            if let Some(
                Busy {
                    walker: Some(rect),
                    ..
                },
            ) = slot
            {
                running.push(*rect);
            }
        }
        running
    }
}
