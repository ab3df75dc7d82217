//! The writer's end.
ghost use Rattle.std.specs.Prelude.{◌≡◌, ◌≤◌, ◌<◌, ◌+◌, ◌^◌, ◌++◌, ◌∷◌, ◌↔◌, [], length, true, IsTrue, IfOk, OnOk, OnErr};
ghost use Rattle.live_view.specs.Shown.{updates_of, with_row, StartsWith};
ghost use Rattle.live_view.specs.Views.{published, pending, total};

use crate::press::{Press, RowStage, RuledWriter};
use crate::reader::LiveReader;
use crate::told::Told;
use crate::update::{Update, Updates, WallChange};
use crate::wall::Wall;
use geom_core::{NoMemory, TileKey};
use left_right::writer::Writer;
use past_core::{Line, Naming};
use std::alloc::Global;
use std::marker::{Brand, Model};
use std::sync::Wait;
use tile_core::Tile;

/// No place was found free for one more reader. No cause is promised: so it is where as many readers are in use as
/// there is room for, and it may be so while readers come and go.
#[derive(Clone, Copy, Debug, PartialEq, Eq)]
pub struct NoPlace;

/// What begins a live view. Contracts see which one it is.
#[derive(Drop)]
pub struct LiveOpened {
    line: Line<Updates>,
}

impl Model for LiveOpened {
    ghost use Rattle.std.specs.Prelude.{◌≡◌, []};
    ghost use Rattle.logbook.specs.Pages.{Book, book_coded};
    ghost use Rattle.past_core.specs.Spans.{book_of, entries};

    ghost Value = { Book };

    ghost coded = { book_coded };

    ghost view = { λ o. book_of o.line };

    ghost invariant = { λ o. entries o.line ≡ [] };
}

/// A live view that has no name yet. No memory.
pub fn open_live() -> LiveOpened {
    LiveOpened { line: Line::new() }
}

impl LiveOpened {
    /// Its writer, under the name that the caller picks for it, with no update, and room for so many readers at
    /// a time.
    ///
    /// # Errors
    /// `NoMemory`.
    pub fn named<K: Naming>(self, alloc: Global, readers: u16) -> Result<LiveWriter<K>, NoMemory>
        requires name { self ≡ K.book }
        requires some { 0 < readers }
        ensures { IfOk result (λ w. w ≡ ([], [])) }
    {
        let LiveOpened { line } = self;
        let past = line.past();
        let first = Wall::new(alloc, past.again())?;
        let second = Wall::new(alloc, past)?;
        let writer: RuledWriter<K> = Writer::new(alloc, first, second, readers as usize)?;
        Ok(LiveWriter {
            press: Some(Press {
                writer,
                line,
                stage: RowStage::Open,
                count: 0,
            }),
        })
    }
}

/// The writer of that name. Contracts see its published rows and its pending updates. It isn't `Drop`: end it by
/// `close`.
pub struct LiveWriter<K: Naming> {
    press: Option<Press<K>>,
}

impl<K: Naming> Model for LiveWriter<K> {
    ghost use Rattle.std.specs.Prelude.{[], drop, IsSomeAnd, unwrap_or};
    ghost use Rattle.std.specs.Option.{option_map};
    ghost use Rattle.past_core.specs.Spans.{entries};
    ghost use Rattle.live_view.specs.Rule.{Stands};
    ghost use Rattle.live_view.specs.Views.{Feed};
    ghost use Rattle.live_view.specs.Walls.{updates_in};

    ghost Value = { Feed };

    ghost view = { λ s. (unwrap_or (option_map (λ p. entries p.writer.desk.shown.value.1) s.press) [], unwrap_or (option_map (λ p. updates_in (drop p.writer.behind p.writer.log.items)) s.press) []) };

    ghost invariant = { λ s. IsSomeAnd s.press (λ p. Stands K.book p.writer.desk.shown.value p.line (drop p.writer.behind p.writer.log.items) p.stage p.count) };
}

impl<K: Naming> LiveWriter<K> {
    /// What is published now.
    pub fn tell(&self) -> Told<K>
        ensures { result ≡ published self.now }
    {
        match &self.press {
            Some(press) => Told::by(press.writer.published()),
            None => unreachable!(),
        }
    }

    /// Whether so many updates are published as were told of this name. Then the published rows begin with those.
    pub fn has(&self, told: &Told<K>) -> bool
        ensures number { IsTrue result ↔ (length (updates_of told.now) ≤ length
            (updates_of (published self.now))) }
        ensures rows { result ≡ true → StartsWith (published self.now) told.now }
    {
        self.tell().begins_with(told)
    }

    /// A new reader, which knows all that is published now. It has a place until it is dropped.
    ///
    /// # Errors
    /// `NoPlace`, for which no cause is promised.
    pub fn reader(&self) -> Result<LiveReader<K>, NoPlace>
        ensures { IfOk result (λ r. r ≡ (published self.now, 0)) }
    {
        match &self.press {
            Some(press) => match press.writer.factory().reader() {
                Ok(reader) => Ok(LiveReader::over(reader, self.tell())),
                Err(_) => Err(NoPlace),
            },
            None => unreachable!(),
        }
    }

    /// How many updates there are, pending ones included.
    pub fn count(&self) -> u64
        ensures value { result ≡ total self.now }
        ensures few { result ≤ 2 ^ 63 }
    {
        match &self.press {
            Some(press) => press.count,
            None => unreachable!(),
        }
    }

    /// One more pending update: the tile, shared, under that key. What readers see stays. A key outside
    /// the largest canvas is taken too, and never looked at.
    ///
    /// # Errors
    /// `NoMemory`; all is as it was. It comes too after a `publish` that lacked memory, until one has succeeded.
    pub fn put(&mut self, key: TileKey, tile: &Tile) -> Result<(), NoMemory>
        requires { total self.old < 2 ^ 63 }
        ensures published { published self.new ≡ published self.old }
        ensures ok { OnOk result (pending self.new ≡ pending self.old ++
            (record { key = key; tile = tile.now }) ∷ []) }
        ensures err { OnErr result (pending self.new ≡ pending self.old) }
    {
        let tile = tile.share()?;
        let Some(press) = &mut self.press else {
            unreachable!()
        };
        press.put(Update { key, tile })
    }

    /// Publishes the pending updates, all at once and in order. It may wait for a reader.
    ///
    /// # Errors
    /// `NoMemory`, also where a tile has as many owners as can be counted; all is as it was.
    pub fn publish<R: Wait>(&mut self, rt: &R) -> Result<(), NoMemory>
        ensures published { OnOk result (published self.new ≡ with_row (published self.old)
            (pending self.old)) }
        ensures pending { OnOk result (pending self.new ≡ []) }
        ensures err { OnErr result (self.new ≡ self.old) }
    {
        match self.press.take() {
            Some(press) => {
                let (press, shown) = press.publish::<Brand, R>(rt);
                match self.press.replace(press) {
                    Some(_) => unreachable!(),
                    None => {}
                }
                shown
            }
            None => unreachable!(),
        }
    }

    /// Ends the writer. Pending updates are let go. It may wait for a reader.
    pub fn close<R: Wait>(self, rt: &R) {
        let LiveWriter { press } = self;
        match press {
            Some(press) => {
                let Press {
                    writer,
                    line: _line,
                    stage: _,
                    count: _,
                } = press;
                writer.take(rt);
            }
            None => {}
        }
    }
}
