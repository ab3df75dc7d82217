//! The keys of waiting strokes, by their numbers.

ghost use Rattle.std.specs.Prelude.{◌≡◌, None, Some, OnOk, OnErr, ℕ};
ghost use Rattle.std.specs.Option.{ForSome};
ghost use Rattle.std.specs.Ordering.{nat_cmp};
ghost use Rattle.std.specs.BTreeMap.{get as found, IsUnchanged, Updates};

use geom_core::NoMemory;
use std::alloc::Global;
use std::collections::BTreeMap;

/// A stroke's number, and the key of its entry.
#[derive(Clone, Copy, Debug, PartialEq, Eq)]
struct Opened {
    no: u32,
    key: usize,
}

/// The keys of waiting strokes. Nearly all jobs are of the stroke that was opened last, so its key
/// is at hand beside the map, as long as that stroke waits.
#[derive(Drop)]
pub(crate) struct WaitingKeys {
    newest: Option<Opened>,
    keys: BTreeMap<u32, usize>,
    ghost found_too: { ForSome newest (λ s. found nat_cmp keys s.no ≡ Some s.key) },
}

impl WaitingKeys {
    /// No stroke waits.
    pub(crate) fn new(alloc: Global) -> Self
        ensures { (n : ℕ) → found nat_cmp result.keys n ≡ None }
    {
        WaitingKeys {
            newest: None,
            keys: BTreeMap::new(alloc),
        }
    }

    /// The key of the stroke with that number.
    #[inline(always)]
    pub(crate) fn get(&self, no: u32) -> Option<usize>
        ensures value { result ≡ found nat_cmp self.now.keys no }
    {
        match self.newest {
            Some(stroke) if stroke.no == no => Some(stroke.key),
            _ => self.keys.get(&no).copied(),
        }
    }

    /// Adds the key of a stroke that was opened.
    pub(crate) fn insert(&mut self, no: u32, key: usize) -> Result<(), NoMemory>
        ensures updates { OnOk result (Updates nat_cmp self.old.keys self.new.keys no (Some key)) }
        ensures err { OnErr result (IsUnchanged self.old.keys self.new.keys) }
    {
        if self.keys.insert(no, key).is_err() {
            return Err(NoMemory);
        }
        self.newest = Some(Opened { no, key });
        Ok(())
    }

    /// Takes out the key of the stroke with that number.
    pub(crate) fn remove(&mut self, no: u32) -> Option<usize>
        ensures value { result ≡ found nat_cmp self.old.keys no }
        ensures updates { Updates nat_cmp self.old.keys self.new.keys no None }
    {
        if let Some(stroke) = self.newest {
            if stroke.no == no {
                self.newest = None;
            }
        }
        self.keys.remove(&no)
    }
}
