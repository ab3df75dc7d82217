//! Who watches the picture while it is painted.

ghost use Rattle.std.specs.Prelude.{None};
ghost use Rattle.crew_run.specs.Watched.{Seen, SeesRoot, SeesRootBut, OwesAll, SeesTheSame};

use desk_core::Desk;
use geom_core::TileKey;
use std::sync::Wait;

/// Shows a picture while it is painted. It lies under the desk's lock, beside the desk, whose threads call it
/// one at a time: so what it shows is the root's cache whenever the lock is free, but on tiles that it owes.
pub trait Watching: Drop {
    /// The pixel that it shows at each point, or none where it owes the tile.
    ghost seen: { Self → Seen };

    /// Takes over one tile of the root's cache, which may be new there, or owes it.
    fn composed(&mut self, desk: &Desk, key: TileKey)
        requires { SeesRootBut key (seen self.old) desk.now }
        ensures { SeesRoot (seen self.new) desk.now };

    /// Lets others see what it took over, as far as it can.
    fn publish<R: Wait>(&mut self, rt: &R)
        ensures { SeesTheSame (seen self.old) (seen self.new) };

    /// Owes each tile: the root's cache will change without a word.
    fn owe_all(&mut self)
        ensures { OwesAll (seen self.new) };
}

/// Nobody watches.
#[derive(Clone, Copy, Debug)]
pub(crate) struct Unwatched;

impl Watching for Unwatched {
    ghost seen = { λ _ _. None };

    fn composed(&mut self, _desk: &Desk, _key: TileKey) {}

    fn publish<R: Wait>(&mut self, _rt: &R) {}

    fn owe_all(&mut self) {}
}
