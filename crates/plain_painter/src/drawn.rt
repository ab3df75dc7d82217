//! Small scripts, drawn by chance.

ghost use Rattle.std.specs.Prelude.{◌≤◌, ◌<◌};

use doc_model::{Canvas, Change, Command, Job, Kind, Look, Stamp, Track};
use geom_core::{NoMemory, Rect, TileKey};
use pixel_core::{Op, Pixel};
use script_text::{MakeRefusal, Script};
use std::alloc::Global;

/// How many entries a script has after its tree, about.
const BLOCKS: u32 = 12;

/// The script of that seed: a canvas of 70 by 3, so that two tiles show, up to four layers in two
/// groups, by half four more below them, and strokes of one to three jobs near the canvas and beyond
/// its corner, with changes of the tree, undo, redo, purges and exports between them, and an export at
/// the end. Each seed is always the same script. None where what was drawn is no script.
///
/// # Errors
/// `NoMemory`.
pub fn drawn_script(alloc: Global, seed: u64) -> Result<Option<Script>, NoMemory> {
    let mut draws = Draws::new(seed);
    let canvas = Canvas {
        w: 70,
        h: 3,
        paper: Pixel::new(draws.byte(), draws.byte(), draws.byte(), 255),
    };
    let mut commands = Vec::new(alloc);
    add_tree(&mut commands, &mut draws)?;
    for no in 1..=BLOCKS {
        add_block(&mut commands, &mut draws, no)?;
    }
    add_last(&mut commands, Command::Export)?;
    match Script::from_commands(alloc, canvas, commands) {
        Ok(script) => Ok(Some(script)),
        Err(MakeRefusal::NoMemory) => Err(NoMemory),
        Err(MakeRefusal::NotScript) => Ok(None),
    }
}

/// A generator of numbers that are the same on every machine.
#[derive(Drop)]
pub struct Draws {
    state: u64,
}

impl Draws {
    /// The generator of that seed.
    pub fn new(seed: u64) -> Draws {
        Draws { state: seed }
    }

    /// A number below n.
    pub fn below(&mut self, n: u32) -> u32
        requires { 1 ≤ n }
        ensures { result < n }
    {
        let product = self.state.wrapping_mul(6364136223846793005);
        self.state = product.wrapping_add(1442695040888963407);
        ((self.state >> 33) % u64::from(n)) as u32
    }

    /// A byte.
    fn byte(&mut self) -> u8 {
        self.below(256) as u8
    }

    /// Whether one of n was drawn.
    pub fn once_in(&mut self, n: u32) -> bool
        requires { 1 ≤ n }
    {
        self.below(n) == 0
    }

    /// A node's id, mostly of a node of the tree.
    fn id(&mut self) -> u16 {
        self.below(8) as u16 + 1
    }

    /// A layer of the tree, at times another node or none.
    fn layer(&mut self) -> u16 {
        if self.once_in(10) {
            self.id()
        } else {
            self.below(4) as u16 + 3
        }
    }

    /// A place among few children.
    fn place(&mut self) -> u8 {
        self.below(3) as u8
    }

    /// A pixel of some alpha, at times opaque.
    fn pixel(&mut self) -> Pixel {
        let alpha = if self.once_in(3) { 255 } else { self.byte() };
        Pixel::new(self.byte(), self.byte(), self.byte(), alpha)
    }

    /// An operation, by half the usual one.
    fn op(&mut self) -> Op {
        match self.below(8) {
            0 => Op::Erase,
            1 => Op::Multiply,
            2 => Op::Screen,
            3 => Op::Addition,
            _ => Op::Over,
        }
    }

    /// A strength or an opacity, by half all of it.
    fn strength(&mut self) -> u8 {
        if self.once_in(2) { 255 } else { self.byte() }
    }

    /// A column near the canvas, by half at the edge between its tiles.
    fn column(&mut self) -> i32 {
        if self.once_in(2) {
            self.below(8) as i32 + 58
        } else {
            self.below(80) as i32 - 8
        }
    }

    /// A row near the canvas.
    fn row(&mut self) -> i32 {
        self.below(7) as i32 - 3
    }

    /// A rectangle near the canvas.
    fn rect(&mut self) -> Option<Rect> {
        let w = self.below(24) + 1;
        let h = self.below(4) + 1;
        Rect::new(self.column(), self.row(), w, h).ok()
    }

    /// How a job stands to its neighbours.
    fn kind(&mut self) -> Kind {
        match self.below(6) {
            0 => Kind::Bar,
            1 => Kind::Uni,
            2 => Kind::Con,
            3 => Kind::Con,
            _ => Kind::Seq,
        }
    }

    /// A job.
    fn job(&mut self) -> Option<Job> {
        match self.below(5) {
            0 => self.fill(),
            1 => Some(self.dab()),
            2 => self.shift(),
            3 => self.blur(),
            _ => Some(self.track()),
        }
    }

    fn fill(&mut self) -> Option<Job> {
        Some(Job::Fill {
            rect: self.rect()?,
            colour: self.pixel(),
            op: self.op(),
            strength: self.strength(),
        })
    }

    fn dab(&mut self) -> Job {
        Job::Dab {
            x: self.column(),
            y: self.row(),
            r: self.below(5) as u8,
            soft: self.once_in(2),
            colour: self.pixel(),
            op: self.op(),
            strength: self.strength(),
        }
    }

    fn shift(&mut self) -> Option<Job> {
        Some(Job::Move {
            rect: self.rect()?,
            dx: self.below(21) as i32 - 10,
            dy: self.below(5) as i32 - 2,
        })
    }

    fn blur(&mut self) -> Option<Job> {
        Some(Job::Blur {
            rect: self.rect()?,
            r: if self.once_in(5) { 2 } else { 1 },
        })
    }

    /// A track along three points, in a tile that shows.
    fn track(&mut self) -> Job {
        let points = [self.point(), self.point(), self.point()];
        let stamp = Stamp {
            r: self.below(5) as u8,
            soft: self.once_in(2),
            colour: self.pixel(),
            op: self.op(),
            strength: self.strength(),
        };
        let gap = self.below(8) as u8 + 1;
        let col = self.below(2) as i16;
        Job::Track {
            track: Track::new(&points, gap, stamp),
            cell: TileKey { row: 0, col },
        }
    }

    /// A point near the canvas.
    fn point(&mut self) -> (i16, i16) {
        (self.below(80) as i16 - 8, self.below(7) as i16 - 3)
    }

    /// A change of the tree, refused at times.
    fn change(&mut self) -> Change {
        match self.below(8) {
            0 => Change::Remove { id: self.id() },
            1 => Change::Layer {
                id: self.id(),
                parent: self.below(3) as u16,
                place: self.place(),
                ground: self.pixel(),
            },
            2 => Change::Place {
                id: self.id(),
                parent: self.below(4) as u16,
                place: self.place(),
            },
            3 => Change::Group {
                id: self.id(),
                parent: self.below(3) as u16,
                place: self.place(),
            },
            _ => Change::Look {
                id: self.id(),
                look: Look {
                    opacity: self.strength(),
                    op: self.op(),
                    visible: !self.once_in(4),
                },
            },
        }
    }
}

/// Adds an item at the end.
fn add_last<T: Copy>(items: &mut Vec<T>, item: T) -> Result<(), NoMemory> {
    items.push(item)?;
    Ok(())
}

/// Two groups, at times one in the other, with a layer each, and two layers more.
fn add_tree(commands: &mut Vec<Command>, draws: &mut Draws) -> Result<(), NoMemory> {
    add_group(commands, 1, 0)?;
    add_group(commands, 2, draws.below(2) as u16)?;
    add_layer(commands, draws, 3, 1)?;
    add_layer(commands, draws, 4, 2)?;
    let parent = draws.below(3) as u16;
    add_layer(commands, draws, 5, parent)?;
    add_layer(commands, draws, 6, 0)?;
    if draws.once_in(2) {
        add_grounds(commands, draws)?;
    }
    Ok(())
}

/// Adds four layers of some pixel at the bottom of the root or a group: as many as a walk keeps as one picture.
fn add_grounds(commands: &mut Vec<Command>, draws: &mut Draws) -> Result<(), NoMemory> {
    let parent = draws.below(3) as u16;
    for id in 9..=12 {
        add_ground(commands, id, parent, draws.pixel())?;
    }
    Ok(())
}

/// Adds a group at the bottom.
fn add_group(commands: &mut Vec<Command>, id: u16, parent: u16) -> Result<(), NoMemory> {
    let change = Change::Group {
        id,
        parent,
        place: 0,
    };
    add_last(commands, Command::Change(change))
}

/// Adds a layer at the bottom, by half a clear one.
fn add_layer(
    commands: &mut Vec<Command>,
    draws: &mut Draws,
    id: u16,
    parent: u16,
) -> Result<(), NoMemory> {
    let ground = if draws.once_in(2) {
        Pixel::CLEAR
    } else {
        draws.pixel()
    };
    add_ground(commands, id, parent, ground)
}

/// Adds a layer of that pixel at the bottom.
fn add_ground(
    commands: &mut Vec<Command>,
    id: u16,
    parent: u16,
    ground: Pixel,
) -> Result<(), NoMemory> {
    let change = Change::Layer {
        id,
        parent,
        place: 0,
        ground,
    };
    add_last(commands, Command::Change(change))
}

/// Adds a stroke, by half, or what else there may be.
fn add_block(commands: &mut Vec<Command>, draws: &mut Draws, no: u32) -> Result<(), NoMemory> {
    match draws.below(14) {
        0 => add_last(commands, Command::Undo),
        1 => add_last(commands, Command::Undo),
        2 => add_last(commands, Command::Redo),
        3 => add_last(
            commands,
            Command::Purge {
                keep: draws.below(4),
            },
        ),
        4 => add_last(commands, Command::Export),
        5 => add_last(commands, Command::Export),
        6 => add_last(commands, Command::Change(draws.change())),
        _ => add_stroke(commands, draws, no),
    }
}

/// Adds a stroke of one to three jobs, at times cancelled.
fn add_stroke(commands: &mut Vec<Command>, draws: &mut Draws, no: u32) -> Result<(), NoMemory> {
    let opened = Command::Stroke {
        no,
        layer: draws.layer(),
        exclusive: draws.once_in(4),
    };
    add_last(commands, opened)?;
    for _ in 0..draws.below(3) + 1 {
        add_job(commands, draws, no)?;
    }
    let closed = if draws.once_in(8) {
        Command::Cancel { no }
    } else {
        Command::End { no }
    };
    add_last(commands, closed)
}

/// Adds a job of the stroke.
fn add_job(commands: &mut Vec<Command>, draws: &mut Draws, no: u32) -> Result<(), NoMemory> {
    let kind = draws.kind();
    match draws.job() {
        Some(job) => add_last(commands, Command::Add { no, kind, job }),
        None => Ok(()),
    }
}
