//! What walks composed comes to the desk.

ghost use Rattle.std.specs.Prelude.{◌≡◌, Ok, OnErr};
ghost use Rattle.machine_model.specs.Event.{WalkPublish};
ghost use Rattle.machine_model.specs.Step.{Step};
ghost use Rattle.desk_state.specs.Enabled.{TakesWalk};
ghost use Rattle.desk_state.specs.Settles.{Settles};
ghost use Rattle.desk_events.specs.Commits.{MayPublishRow, ReadsAsWork};
ghost use Rattle.desk_core.specs.Commits.{PublishesRow};
ghost use Rattle.desk_core.specs.declared.answers.Published.TheVariants as answers;

use crate::answers::Published;
use crate::desk::Desk;
use desk_events::SlotId;
use geom_core::{NoMemory, TileKey};
use walker_core::Composed;

impl Desk {
    /// Lays the picture of a group on a tile, as the walk in a slot composed it, on the group's cache.
    /// `Nothing` exactly where the slot hasn't that work, the walk doesn't compose the group, its patch doesn't
    /// meet the tile, the pair is published, or it wasn't composed or was of other readings.
    ///
    /// # Errors
    /// `NoMemory`; all is as it was.
    pub fn publish_walk(
        &mut self,
        slot: SlotId,
        composed: &Composed<'_>,
        group: u16,
        key: TileKey,
    ) -> Result<Published, NoMemory>
        ensures taken { result ≡ Ok answers.Stored
            → TakesWalk self.old slot.place slot.serial composed.now group key }
        ensures stored { result ≡ Ok answers.Stored
            → Step self.old (WalkPublish slot.place group key) self.new }
        ensures nothing { result ≡ Ok answers.Nothing → self.new ≡ self.old }
        ensures refused { result ≡ Ok answers.Nothing
            → TakesWalk self.old slot.place slot.serial composed.now group key → ⊥ }
        ensures err { OnErr result (self.new ≡ self.old) }
    {
        if !self.machine.takes_walk(slot, composed, group, key) {
            return Ok(Published::Nothing);
        }
        self.machine.lay_walk(slot, composed, group, key)?;
        Ok(Published::Stored)
    }

    /// Publishes a tile of the walk in a slot, of all its groups of which it isn't published: so several threads
    /// may compose the tiles of one walk. Where a whole tile is laid, no pixel is copied. `Nothing` exactly where
    /// the slot hasn't that work, the walk's patch doesn't meet the tile, or not all its groups were composed there,
    /// of the same as the walk reads.
    ///
    /// # Errors
    /// `NoMemory`; it is published of some of the groups, from the first on, or of none, but not of all.
    pub fn publish_row(
        &mut self,
        slot: SlotId,
        composed: &Composed<'_>,
        key: TileKey,
    ) -> Result<Published, NoMemory>
        ensures answer { PublishesRow self.old slot.place slot.serial
            composed.now key result self.new }
        ensures runs { Settles self.old self.new }
        ensures canvas { self.new.canvas ≡ self.old.canvas }
        ensures fed { self.new.fed ≡ self.old.fed }
    {
        if !self.machine.reads_as_work(slot, composed, key) {
            return Ok(Published::Nothing);
        }
        self.publish_known_row(slot, composed, key)
    }

    /// The same of what is known to have been composed of the slot's walk, if it is there: so no pixel is compared.
    /// `Nothing` exactly where `publish_row` says so.
    ///
    /// # Errors
    /// `NoMemory`; it is published of some of the groups, from the first on, or of none, but not of all.
    pub fn publish_known_row(
        &mut self,
        slot: SlotId,
        composed: &Composed<'_>,
        key: TileKey,
    ) -> Result<Published, NoMemory>
        requires { ReadsAsWork self.old slot.place slot.serial composed.now key }
        ensures answer { PublishesRow self.old slot.place slot.serial
            composed.now key result self.new }
        ensures runs { Settles self.old self.new }
        ensures canvas { self.new.canvas ≡ self.old.canvas }
        ensures fed { self.new.fed ≡ self.old.fed }
    {
        if !self.machine.may_publish_row(slot, composed, key) {
            return Ok(Published::Nothing);
        }
        self.keep_folds(slot, composed, key);
        self.machine.lay_walked_row(slot, composed, key)?;
        Ok(Published::Stored)
    }

    /// Keeps what the walk in a slot made of lower children on a tile, where these are known to be as it read them and
    /// all walks at work compose the same groups. Where there is no memory, some of it isn't kept.
    fn keep_folds(&mut self, slot: SlotId, composed: &Composed<'_>, key: TileKey)
        requires { MayPublishRow self.old slot.place slot.serial composed.now key }
        ensures { self.new ≡ self.old }
    {
        let patch = composed.inputs().patch();
        let _sides = (patch.rect.w(), patch.rect.h());
        if self.folds.are_read_by(patch.walk, slot.serial) && self.machine.all_walk(patch.walk) {
            let made = composed.folds(key);
            let _kept = self.folds.keep(self.alloc, &patch.rect, made);
        }
    }
}
