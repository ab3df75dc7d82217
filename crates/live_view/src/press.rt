//! What publishes: the wall's writer, and the list of what was published.
ghost use Rattle.std.specs.Prelude.{◌≡◌, ◌≢◌, ◌<◌, ◌^◌, ◌++◌, ◌∷◌, [], length, drop, OnOk, OnErr};
ghost use Rattle.past_core.specs.Spans.{entries};
ghost use Rattle.live_view.specs.declared.press.RowStage.TheVariants.{Open, Marked};
ghost use Rattle.live_view.specs.Rule.{Stands};
ghost use Rattle.live_view.specs.Shown.{with_row};
ghost use Rattle.live_view.specs.Walls.{updates_in};

use crate::row::{Row, ThisRow};
use crate::rule::WallRule;
use crate::update::{Update, Updates, WallChange};
use crate::wall::Wall;
use crossbeam_utils::rule::Unruled;
use geom_core::NoMemory;
use left_right::writer::Writer;
use past_core::{Line, Naming};
use std::sync::Wait;

/// The writer of a wall, under the rule.
pub(crate) type RuledWriter<K> = Writer<Wall, WallChange, (), WallRule<K>>;

/// How far the pending row has come: not at all, it stands in the list, or the wall will take in that it does.
#[derive(Clone, Copy)]
pub(crate) enum RowStage {
    Open,
    Listed,
    Marked,
}

/// The wall's writer, the list of what was published, how far the pending row has come, and how many updates there
/// are.
pub(crate) struct Press<K: Naming> {
    pub(crate) writer: RuledWriter<K>,
    pub(crate) line: Line<Updates>,
    pub(crate) stage: RowStage,
    pub(crate) count: u64,
}

impl<K: Naming> Press<K> {
    /// One more pending update.
    ///
    /// # Errors
    /// `NoMemory`, also where the pending row stands in the list already.
    pub(crate) fn put(&mut self, update: Update) -> Result<(), NoMemory>
        requires few { self.old.count < 2 ^ 63 }
        requires stands { Stands K.book self.old.writer.desk.shown.value self.old.line
            (drop self.old.writer.behind self.old.writer.log.items) self.old.stage self.old.count }
        ensures desk { self.new.writer.desk ≡ self.old.writer.desk }
        ensures stands { Stands K.book self.new.writer.desk.shown.value self.new.line
            (drop self.new.writer.behind self.new.writer.log.items) self.new.stage self.new.count }
        ensures ok { OnOk result (updates_in (drop self.new.writer.behind self.new.writer.log.items)
            ≡ updates_in (drop self.old.writer.behind self.old.writer.log.items) ++ update ∷ []) }
        ensures err { OnErr result (updates_in (drop self.new.writer.behind
            self.new.writer.log.items)
            ≡ updates_in (drop self.old.writer.behind self.old.writer.log.items)) }
    {
        match self.stage {
            RowStage::Open => match self.writer.append(WallChange::Lay(update)) {
                Ok(()) => {
                    self.count += 1;
                    Ok(())
                }
                Err(_) => Err(NoMemory),
            },
            RowStage::Listed => Err(NoMemory),
            RowStage::Marked => Err(NoMemory),
        }
    }

    /// Publishes the pending row, if it has updates. It may wait for a reader.
    ///
    /// # Errors
    /// `NoMemory`; what is published and what is pending stay. The next call goes on from there.
    pub(crate) fn publish<N: Row, R: Wait>(self, rt: &R) -> (Press<K>, Result<(), NoMemory>)
        requires row { N.updates ≡ updates_in (drop self.writer.behind self.writer.log.items) }
        requires stands { Stands K.book self.writer.desk.shown.value self.line
            (drop self.writer.behind self.writer.log.items) self.stage self.count }
        ensures stands { Stands K.book result.0.writer.desk.shown.value result.0.line
            (drop result.0.writer.behind result.0.writer.log.items) result.0.stage result.0.count }
        ensures published { OnOk result.1 (entries result.0.writer.desk.shown.value.1
            ≡ with_row (entries self.writer.desk.shown.value.1) N.updates) }
        ensures pending { OnOk result.1
            (updates_in (drop result.0.writer.behind result.0.writer.log.items) ≡ []) }
        ensures shown { OnErr result.1
            (result.0.writer.desk.shown.value ≡ self.writer.desk.shown.value) }
        ensures kept { OnErr result.1
            (updates_in (drop result.0.writer.behind result.0.writer.log.items) ≡ N.updates) }
    {
        if !self.writer.has_pending_operations() {
            return (self, Ok(()));
        }
        let mut press = self;
        if press.list::<N>().is_err() {
            return (press, Err(NoMemory));
        }
        if press.mark().is_err() {
            return (press, Err(NoMemory));
        }
        press.show(rt)
    }

    // The pending row stands in the list.
    fn list<N: Row>(&mut self) -> Result<(), NoMemory>
        requires row { N.updates ≡ updates_in (drop self.old.writer.behind
            self.old.writer.log.items) }
        requires some { 0 < length (drop self.old.writer.behind self.old.writer.log.items) }
        requires stands { Stands K.book self.old.writer.desk.shown.value self.old.line
            (drop self.old.writer.behind self.old.writer.log.items) self.old.stage self.old.count }
        ensures writer { self.new.writer ≡ self.old.writer }
        ensures stands { Stands K.book self.new.writer.desk.shown.value self.new.line
            (drop self.new.writer.behind self.new.writer.log.items) self.new.stage self.new.count }
        ensures listed { OnOk result (self.new.stage ≢ Open) }
    {
        match self.stage {
            RowStage::Open => {
                if !self.line.add::<ThisRow<N>>() {
                    return Err(NoMemory);
                }
                self.stage = RowStage::Listed;
                Ok(())
            }
            RowStage::Listed => Ok(()),
            RowStage::Marked => Ok(()),
        }
    }

    // The wall will take in that the row stands in the list.
    fn mark(&mut self) -> Result<(), NoMemory>
        requires listed { self.old.stage ≢ Open }
        requires stands { Stands K.book self.old.writer.desk.shown.value self.old.line
            (drop self.old.writer.behind self.old.writer.log.items) self.old.stage self.old.count }
        ensures desk { self.new.writer.desk ≡ self.old.writer.desk }
        ensures pending { updates_in (drop self.new.writer.behind self.new.writer.log.items)
            ≡ updates_in (drop self.old.writer.behind self.old.writer.log.items) }
        ensures stands { Stands K.book self.new.writer.desk.shown.value self.new.line
            (drop self.new.writer.behind self.new.writer.log.items) self.new.stage self.new.count }
        ensures marked { OnOk result (self.new.stage ≡ Marked) }
    {
        match self.stage {
            RowStage::Open => unreachable!(),
            RowStage::Listed => match self.writer.append(WallChange::Mark(self.line.past())) {
                Ok(()) => {
                    self.stage = RowStage::Marked;
                    Ok(())
                }
                Err(_) => Err(NoMemory),
            },
            RowStage::Marked => Ok(()),
        }
    }

    // Readers see the row.
    fn show<R: Wait>(self, rt: &R) -> (Press<K>, Result<(), NoMemory>)
        requires marked { self.stage ≡ Marked }
        requires stands { Stands K.book self.writer.desk.shown.value self.line
            (drop self.writer.behind self.writer.log.items) self.stage self.count }
        ensures stands { Stands K.book result.0.writer.desk.shown.value result.0.line
            (drop result.0.writer.behind result.0.writer.log.items) result.0.stage result.0.count }
        ensures published { OnOk result.1 (entries result.0.writer.desk.shown.value.1
            ≡ with_row (entries self.writer.desk.shown.value.1)
            (updates_in (drop self.writer.behind self.writer.log.items))) }
        ensures pending { OnOk result.1
            (updates_in (drop result.0.writer.behind result.0.writer.log.items) ≡ []) }
        ensures shown { OnErr result.1
            (result.0.writer.desk.shown.value ≡ self.writer.desk.shown.value) }
        ensures kept { OnErr result.1
            (updates_in (drop result.0.writer.behind result.0.writer.log.items)
            ≡ updates_in (drop self.writer.behind self.writer.log.items)) }
    {
        let Press {
            writer,
            line,
            stage,
            count,
        } = self;
        let (writer, shown) = writer.publish_as::<Unruled, R>(rt);
        match shown {
            Ok(()) => {
                let stage = RowStage::Open;
                let press = Press {
                    writer,
                    line,
                    stage,
                    count,
                };
                (press, Ok(()))
            }
            Err(_) => {
                let press = Press {
                    writer,
                    line,
                    stage,
                    count,
                };
                (press, Err(NoMemory))
            }
        }
    }
}
