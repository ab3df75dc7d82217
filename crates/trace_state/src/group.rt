//! A group of a walk, and its tiles.

ghost use Rattle.std.specs.Prelude.{◌≡◌, OnOk, IfOk};
ghost use Rattle.geom_core.specs.Keys.{IsWorldKey};
ghost use Rattle.trace_state.specs.Walking.{noted, lacks};

use geom_core::{NoMemory, TileKey};
use memento_core::KeySet;

/// A group that a walk composes, and its tiles that are published.
#[derive(Drop)]
pub struct WalkedGroup {
    pub group: u16,
    pub published: KeySet,
}

impl WalkedGroup {
    /// Notes that the tile is published, where it is that group. Answers whether it wasn't noted yet.
    pub fn note(&mut self, group: u16, key: TileKey) -> Result<bool, NoMemory>
        requires { IsWorldKey key }
        ensures noted { OnOk result (self.new ≡ noted group key self.old) }
        ensures new { IfOk result (λ new. new ≡ lacks group key self.old) }
    {
        if group != self.group {
            return Ok(false);
        }
        self.published.insert(key)
    }
}
