ghost use Rattle.std.specs.Prelude.{◌≡◌, ℕ, Bool, List, ◌≤◌, ◌^◌, length};
ghost use Rattle.turn_lock.specs.Answers.{Answers};

use crate::sent::Sent;
use geom_core::NoMemory;

/// A value with a history of entries of type `E`, each of one artist, who has a number. `F` is
/// what stays of the value.
pub trait Board<E, F> {
    ghost history: { Self → List E };

    ghost fixed: { Self → F };

    ghost artist: { E → ℕ };

    /// Whether an entry may follow a history.
    ghost lawful: { List E → E → Bool };

    /// Adds the entry behind the history, exactly where it is lawful there, and tells its place.
    ///
    /// # Errors
    /// `NoMemory`; the history is as it was.
    fn accept(&mut self, entry: &E) -> Result<Sent, NoMemory>
        requires few { length (history self.old) ≤ 2 ^ 24 }
        ensures answer { Answers lawful (history self.old) entry.now result (history self.new) }
        ensures stays { fixed self.new ≡ fixed self.old };
}
