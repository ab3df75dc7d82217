//! What a piece of work has published.

ghost use Rattle.std.specs.Prelude.{◌≡◌, List, [], ◌∷◌, OnOk, OnErr};
ghost use Rattle.std.specs.List.{list_any};
ghost use Rattle.geom_core.specs.Grid.{Key, same_key};
ghost use Rattle.machine_model.specs.Guards.{same_pair};
ghost use Rattle.desk_state.specs.Newest.{newest_first};

use geom_core::{NoMemory, TileKey};
use std::alloc::Global;
use std::marker::Model;

/// Items, the newest first.
#[derive(Drop)]
pub struct Newest<T> {
    items: Vec<T>,
}

impl<T> Model for Newest<T> {
    ghost use Rattle.std.specs.Prelude.{List};
    ghost use Rattle.std.specs.Coded.{coded_list};
    ghost use Rattle.desk_state.specs.Newest.{newest_first};

    ghost Value = { List T };

    ghost coded = { coded_list T.code };

    ghost view = { λ p. newest_first p.items.items };
}

impl<T: Copy> Newest<T> {
    /// No item.
    pub fn new(alloc: Global) -> Newest<T>
        ensures { result ≡ [] }
    {
        Newest {
            items: Vec::new(alloc),
        }
    }

    /// One more item.
    pub fn note(&mut self, item: T) -> Result<(), NoMemory>
        ensures ok { OnOk result (self.new ≡ item ∷ self.old) }
        ensures err { OnErr result (self.new ≡ self.old) }
    {
        self.items.push(item)?;
        Ok(())
    }

    /// Takes the newest item back.
    pub fn take_back(&mut self)
        ensures { (item : T) (rest : List T) → self.old ≡ item ∷ rest → self.new ≡ rest }
    {
        match self.items.pop() {
            Some(_) => {}
            None => {}
        }
    }

    /// The items, the newest last.
    pub fn as_slice(&self) -> &[T]
        ensures { newest_first result.now ≡ self.now }
    {
        &self.items
    }
}

/// Whether the key is among those that were published.
pub fn has_key(published: &Newest<TileKey>, key: TileKey) -> bool
    ensures { result ≡ list_any (same_key key) published.now }
{
    some_key(published.as_slice(), key)
}

/// Whether the group's tile is among those that were published.
pub fn has_pair(published: &Newest<(u16, TileKey)>, group: u16, key: TileKey) -> bool
    ensures { result ≡ list_any (same_pair group key) published.now }
{
    some_pair(published.as_slice(), group, key)
}

/// Whether the key is among the keys.
fn some_key(keys: &[TileKey], key: TileKey) -> bool
    ensures { result ≡ list_any (same_key key) keys.now }
{
    keys.iter().any(|k| key == *k)
}

/// Whether the pair is among the pairs.
fn some_pair(pairs: &[(u16, TileKey)], group: u16, key: TileKey) -> bool
    ensures { result ≡ list_any (same_pair group key) pairs.now }
{
    pairs.iter().any(|pair| pair.0 == group && key == pair.1)
}
