//! Desks whose events come in an order drawn by chance.

ghost use Rattle.std.specs.Prelude.{◌≡◌, ◌≤◌, ◌<◌};

use crate::fixtures::{desk_for, feed_next, settle};
use crate::fronts::painted_front;
use crate::mixed::{Mixed, mixed_script};
use crate::plays::{is_at, look};
use crate::tickets::{Held, take_ticket};
use crate::told::is_as_told;
use desk_core::{Desk, Ended, Fresh, Published};
use doc_model::Job;
use geom_core::{NoMemory, Rect, TileKey, tile_of};
use memento_core::Steps;
use pixel_core::{Pixel, on_paper};
use plain_painter::Draws;
use std::alloc::Global;
use std::marker::Brand;
use std::sync::ledger::{Blank, Ledger};
use std::test::Fail;

/// How many scripts are drawn.
const SEEDS: u64 = 100;

/// How many steps are drawn for each.
const STEPS: u32 = 500;

/// How many points are looked at after each.
const LOOKS: u32 = 4;

/// A tile that a job has published, of the entry of that place.
#[derive(Drop)]
struct Laid {
    entry: usize,
    job: u32,
    work: Job,
    key: TileKey,
}

/// What a document shows after so many entries and so many jobs of the next.
#[derive(Drop)]
struct Picture {
    entries: usize,
    jobs: u32,
    shown: Option<Desk>,
}

/// A desk, what was drawn for it, the tickets that are held, and what was published of jobs.
#[derive(Drop)]
struct Driver {
    alloc: Global,
    mixed: Mixed,
    desk: Desk,
    draws: Draws,
    /// How often commands are fed.
    eager: u32,
    held: Vec<Held>,
    laid: Vec<Laid>,
    /// What was painted last.
    picture: Option<Picture>,
    /// How many points were up to date that a stroke under way had painted.
    halfway: u64,
}

impl Driver {
    /// A desk for the script with 1 to 17 slots, on which nothing was fed.
    fn new(alloc: Global, seed: u64) -> Result<Option<Driver>, NoMemory> {
        let mut draws = Draws::new(seed);
        let Some(mixed) = mixed_script(alloc, seed, &mut draws)? else {
            return Ok(None);
        };
        let slots = draws.below(17) as u8 + 1;
        Ok(Some(Driver {
            alloc,
            desk: desk_for(alloc, &mixed.script, slots)?,
            mixed,
            eager: draws.below(6) + 2,
            draws,
            held: Vec::new(alloc),
            laid: Vec::new(alloc),
            picture: None,
            halfway: 0,
        }))
    }

    /// Makes a call. Whether some points are right then.
    fn step<L: Ledger>(&mut self, steps: &mut Steps<L>) -> Result<bool, NoMemory> {
        self.act(steps)?;
        self.some_are_right()
    }

    /// Feeds, takes, publishes a tile, or ends some work or throws its ticket away.
    fn act<L: Ledger>(&mut self, steps: &mut Steps<L>) -> Result<(), NoMemory> {
        let drawn = self.draws.below(24);
        if drawn < self.eager {
            let _more = feed_next(&mut self.desk, &self.mixed.script)?;
            Ok(())
        } else if drawn < 13 {
            self.take(steps)
        } else if drawn < 20 {
            self.publish()
        } else {
            self.end();
            Ok(())
        }
    }

    /// Takes, and holds the ticket.
    fn take<L: Ledger>(&mut self, steps: &mut Steps<L>) -> Result<(), NoMemory> {
        let (_, ticket) = take_ticket(&mut self.desk, steps)?;
        if let Some(ticket) = ticket {
            self.held.push(ticket)?;
        }
        Ok(())
    }

    /// Publishes a tile of some work that is held.
    fn publish(&mut self) -> Result<(), NoMemory> {
        let Some(at) = place(&mut self.draws, self.held.len()) else {
            return Ok(());
        };
        let Some(held) = self.held.get(at) else {
            return Ok(());
        };
        let Some((group, key)) = piece(&mut self.draws, held) else {
            return Ok(());
        };
        let entry = self.desk.outcome_count();
        let published = held.publish(self.alloc, &mut self.desk, held.slot(), group, key)?;
        if let Held::Paint(ticket) = held
            && published == Published::Stored
        {
            self.laid.push(Laid {
                entry,
                job: ticket.job,
                work: ticket.work,
                key,
            })?;
        }
        Ok(())
    }

    /// Ends some work that is held, and lets its ticket go. At times the ticket of ended work is kept, or that
    /// of work that can't end yet thrown away.
    fn end(&mut self) {
        let Some(at) = place(&mut self.draws, self.held.len()) else {
            return;
        };
        let Some(held) = self.held.get(at) else {
            return;
        };
        let ended = self.desk.end(held.slot()) == Ended::Done;
        if ended != self.draws.once_in(64) {
            let _gone = self.held.swap_remove(at);
        }
    }

    /// Whether some points are right.
    fn some_are_right(&mut self) -> Result<bool, NoMemory> {
        let canvas = self.desk.canvas();
        for _ in 0..LOOKS {
            let x = self.draws.below(u32::from(canvas.w.max(1))) as u16;
            let y = self.draws.below(u32::from(canvas.h.max(1))) as u16;
            if !self.is_right(x, y)? {
                return Ok(false);
            }
        }
        Ok(true)
    }

    /// Whether a point that is up to date is that of the document with what is published.
    fn is_right(&mut self, x: u16, y: u16) -> Result<bool, NoMemory> {
        match look(&self.desk, x, y) {
            Some((pixel, Fresh::Clean)) => self.shows(x, y, pixel),
            Some((_, Fresh::Dirty)) => Ok(true),
            None => Ok(false),
        }
    }

    /// Whether the document with what is published has that pixel at a point.
    fn shows(&mut self, x: u16, y: u16, pixel: Pixel) -> Result<bool, NoMemory> {
        let paper = self.desk.canvas().paper;
        if paper.bytes()[3] != 255 {
            return Ok(false);
        }
        let entries = self.desk.outcome_count();
        let jobs = newest(&self.laid, entries, x, y);
        if jobs > 0 {
            self.halfway = self.halfway.wrapping_add(1);
        }
        self.paint(entries, jobs)?;
        Ok(self.has(x, y, on_paper(pixel, paper)))
    }

    /// Whether the picture that was painted last has these colours at a point.
    fn has(&self, x: u16, y: u16, colours: [u8; 3]) -> bool {
        match &self.picture {
            Some(
                Picture {
                    shown: Some(shown),
                    ..
                },
            ) => is_at(shown.frames().last(), x, y, colours),
            _ => false,
        }
    }

    /// Paints what a document shows after so many entries and jobs, where that isn't what was painted last.
    fn paint(&mut self, entries: usize, jobs: u32) -> Result<(), NoMemory> {
        if let Some(last) = &self.picture
            && last.entries == entries
            && last.jobs == jobs
        {
            return Ok(());
        }
        let (canvas, commands) = (self.desk.canvas(), self.mixed.entries.as_slice());
        self.picture = Some(Picture {
            entries,
            jobs,
            shown: painted_front(self.alloc, canvas, commands, entries, jobs)?,
        });
        Ok(())
    }

    /// Feeds what is left and settles. Whether then outcomes and frames are those that the plain evaluator
    /// tells, and all points are up to date and right.
    fn ends_well<L: Ledger>(&mut self, steps: &mut Steps<L>) -> Result<bool, NoMemory> {
        if !settle(self.alloc, &mut self.desk, &self.mixed.script, steps)? {
            return Ok(false);
        }
        if !is_as_told(self.alloc, &self.desk, &self.mixed.script)? {
            return Ok(false);
        }
        self.all_are_right()
    }

    /// Whether all points are up to date and right.
    fn all_are_right(&mut self) -> Result<bool, NoMemory> {
        let canvas = self.desk.canvas();
        for y in 0..canvas.h {
            for x in 0..canvas.w {
                let clean = matches!(look(&self.desk, x, y), Some((_, Fresh::Clean)));
                if !clean || !self.is_right(x, y)? {
                    return Ok(false);
                }
            }
        }
        Ok(true)
    }
}

/// A place below `len`. None where `len` is 0.
fn place(draws: &mut Draws, len: usize) -> Option<usize> {
    let count = len.min(1000) as u32;
    if count == 0 {
        return None;
    }
    Some(draws.below(count) as usize)
}

/// A tile of the work, with a group of a walk.
fn piece(draws: &mut Draws, held: &Held) -> Option<(u16, TileKey)> {
    match held {
        Held::Paint(ticket) => {
            if ticket.work.check().is_err() {
                return None;
            }
            let writes = ticket.work.writes();
            Some((0, tile(draws, writes.as_slice())?))
        }
        Held::Walk(ticket) => {
            let path = ticket.inputs.path();
            let group = path.get(place(draws, path.len())?)?;
            Some((*group, tile(draws, &[ticket.inputs.patch().rect])?))
        }
    }
}

/// A tile of one of the rectangles.
fn tile(draws: &mut Draws, rects: &[Rect]) -> Option<TileKey> {
    let rect = rects.get(place(draws, rects.len())?)?;
    let count = rect.tile_count();
    if count == 0 {
        return None;
    }
    Some(rect.tile_at(draws.below(count)))
}

/// The last of the jobs of an entry that have painted the point. 0 where none has.
fn newest(laid: &[Laid], entry: usize, x: u16, y: u16) -> u32 {
    if x >= 2048 || y >= 2048 {
        return 0;
    }
    let (x, y) = (i32::from(x), i32::from(y));
    let key = tile_of(x, y);
    let mut last = 0;
    for one in laid {
        let here = one.entry == entry && one.key == key;
        if here && one.job > last && writes_at(&one.work, x, y) {
            last = one.job;
        }
    }
    last
}

/// Whether the job writes the point.
fn writes_at(job: &Job, x: i32, y: i32) -> bool {
    if job.check().is_err() {
        return false;
    }
    let writes = job.writes();
    writes.as_slice().iter().any(|rect| rect.holds(x, y))
}

/// How many points were right that a stroke under way had painted. None where something was wrong.
fn driven(alloc: Global, seed: u64) -> Result<Option<u64>, NoMemory> {
    match Driver::new(alloc, seed)? {
        Some(mut driver) => {
            if drives_well::<Brand>(&mut driver, Blank::new(1))? {
                Ok(Some(driver.halfway))
            } else {
                Ok(None)
            }
        }
        None => Ok(None),
    }
}

/// Whether all was right after each step, and in the end.
fn drives_well<L: Ledger>(driver: &mut Driver, blank: Blank) -> Result<bool, NoMemory>
    requires name { blank.name ≡ L.name }
    requires parts { blank.parts ≡ L.parts }
    requires some { 0 < blank.parts }
{
    let mut steps = Steps::<L>::new(blank);
    for _ in 0..STEPS {
        if !driver.step(&mut steps)? {
            return Ok(false);
        }
    }
    driver.ends_well(&mut steps)
}

#[test]
fn a_desk_settles_alike_whatever_the_order(rt: HostRuntime) -> Result<(), Fail> {
    let mut halfway = 0u64;
    for seed in 0..SEEDS {
        let right = driven(rt.alloc(), seed)?;
        assert!(rt; right.is_some(), "seed {seed}");
        halfway = halfway.wrapping_add(right.unwrap_or(0));
    }
    assert!(rt; halfway > 100, "{halfway}");
    Ok(())
}
