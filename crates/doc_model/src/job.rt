//! Jobs, and how they stand to their neighbours.
ghost use Rattle.std.specs.Prelude.{IsTrue, ◌↔◌, ◌≡◌, ◌≤◌, ◌≤ℤ◌, ◌-ℤ◌, ◌&&◌, pos, negsuc, int_le, [], ◌∷◌, true, false, IfOk, OnOk, OnErr};
ghost use Rattle.geom_core.specs.Areas.{lies_in, moved, world};
ghost use Rattle.std.specs.List.{list_all};
ghost use Rattle.geom_core.specs.Grid.{tile};
ghost use Rattle.geom_core.specs.Keys.{IsWorldKey};
ghost use Rattle.doc_model.specs.Jobs.{square, squares, grown, reads, writes, checks};
ghost use Rattle.doc_model.specs.Lawful.{of_limits, within_limits};

use crate::track::{Track, track_len};
use arrayvec::ArrayVec;
use geom_core::{CORNER, OutOfWorld, Rect, TileKey, WORLD_SIDE};
use pixel_core::{Op, Pixel};

/// How many columns and rows of tiles it has on each side of (0, 0).
const FAR_KEY: i16 = 256;

/// How many columns and rows the rectangle of a job has at most.
const LONGEST_SIDE: u32 = 4096;

/// How many dabs a track of a job has at most.
const MOST_DABS: u32 = 4096;

/// One painting step on a layer.
#[derive(Clone, Copy, Debug, PartialEq, Eq)]
pub enum Job {
    /// Composes the colour onto each point of the rectangle, with the operation and the strength.
    Fill {
        rect: Rect,
        colour: Pixel,
        op: Op,
        strength: u8,
    },
    /// Composes the colour onto each point of the square of side 2r + 1 round (x, y), with the
    /// strength times the mask of a round brush.
    Dab {
        x: i32,
        y: i32,
        r: u8,
        soft: bool,
        colour: Pixel,
        op: Op,
        strength: u8,
    },
    /// Moves the pixels of the rectangle by (dx, dy), and leaves the layer's default pixel where
    /// none comes to stand.
    Move {
        rect: Rect,
        dx: i32,
        dy: i32,
    },
    /// Gives each point of the rectangle the mean, by alpha, of the pixels at most r columns and r
    /// rows from it.
    Blur {
        rect: Rect,
        r: u8,
    },
    /// Lays the dabs of a track, one after another, on the points of one tile alone.
    Track {
        track: Track,
        cell: TileKey,
    },
}

/// How a job stands to its neighbours in the list of its stroke.
#[derive(Clone, Copy, Debug, PartialEq, Eq)]
pub enum Kind {
    /// Concurrent: it may run beside its neighbours of this kind, and beside a uniquely concurrent one.
    Con,
    /// Sequential: no other job runs beside it.
    Seq,
    /// Barrier: no other job runs beside it, and no update is composed or waits then.
    Bar,
    /// Uniquely concurrent: it may run beside concurrent ones, and beside no other of its kind.
    Uni,
}

impl Job {
    /// Whether each point that the job looks at lies in the world.
    ///
    /// # Errors
    /// `OutOfWorld` exactly where one of the rectangles that it reads leaves the world.
    pub fn check(&self) -> Result<(), OutOfWorld>
        ensures inside { OnOk result (checks self.now ≡ true) }
        ensures outside { OnErr result (checks self.now ≡ false) }
    {
        match self.read_rects() {
            Ok(_) => Ok(()),
            Err(OutOfWorld) => Err(OutOfWorld),
        }
    }

    /// The rectangles that the job looks at.
    pub fn reads(&self) -> ArrayVec<Rect, 2>
        requires { checks self.now ≡ true }
        ensures { result.items ≡ reads self.now }
    {
        self.read_rects().unwrap()
    }

    /// The rectangles that the job may change.
    pub fn writes(&self) -> ArrayVec<Rect, 2>
        requires { checks self.now ≡ true }
        ensures { result.items ≡ writes self.now }
    {
        match *self {
            Job::Blur { rect, .. } => one(rect),
            _ => self.reads(),
        }
    }

    /// Whether both are the same job.
    pub fn same_as(&self, other: &Job) -> bool
        ensures { IsTrue result ↔ (self.now ≡ other.now) }
    {
        self == other
    }

    /// Whether the job meets the limits: sides of 1 to 4096 columns and rows, a dab's radius of at
    /// most 128, and a blur's of 1 to 16.
    pub fn is_within_limits(&self) -> bool
        ensures { result ≡ within_limits self.now }
    {
        match *self {
            Job::Fill { rect, .. } | Job::Move { rect, .. } => is_of_limits(&rect),
            Job::Dab { r, .. } => r <= 128,
            Job::Blur { rect, r } => is_of_limits(&rect) && 1 <= r && r <= 16,
            Job::Track { track, .. } => track_len(&track) <= MOST_DABS,
        }
    }

    /// The rectangles that the job looks at.
    ///
    /// # Errors
    /// `OutOfWorld` where one of them leaves the world.
    fn read_rects(&self) -> Result<ArrayVec<Rect, 2>, OutOfWorld>
        ensures value { IfOk result (λ rects. rects.items ≡ reads self.now) }
        ensures inside { OnOk result (checks self.now ≡ true) }
        ensures outside { OnErr result (checks self.now ≡ false) }
    {
        match *self {
            Job::Fill { rect, .. } => Ok(one(in_world(rect))),
            Job::Dab { x, y, r, .. } => Ok(one(square_round(x, y, r)?)),
            Job::Move { rect, dx, dy } => Ok(ArrayVec::from([
                in_world(rect),
                displaced(&rect, dx, dy)?,
            ])),
            Job::Blur { rect, r } => Ok(one(grown_by(&rect, r)?)),
            Job::Track { track, cell } => Ok(one(tile_of_track(&track, cell)?)),
        }
    }
}

/// The rectangle, which has a point and lies in the world as every one does.
fn in_world(rect: Rect) -> Rect
    ensures value { result ≡ rect }
    ensures inside { lies_in rect world ≡ true }
    ensures columns { 1 ≤ rect.w }
    ensures rows { 1 ≤ rect.h }
{
    let _corner = (rect.left(), rect.top());
    let _sides = (rect.w(), rect.h());
    rect
}

/// The list of one rectangle.
fn one(rect: Rect) -> ArrayVec<Rect, 2>
    ensures { result.items ≡ rect ∷ [] }
{
    let mut rects = ArrayVec::new();
    rects.push(rect);
    rects
}

fn is_of_limits(rect: &Rect) -> bool
    ensures { result ≡ of_limits rect.now }
{
    rect.w() <= LONGEST_SIDE && rect.h() <= LONGEST_SIDE
}

/// The square of side 2r + 1 round (x, y).
///
/// # Errors
/// `OutOfWorld` exactly where the square leaves the world.
pub fn square_round(x: i32, y: i32, r: u8) -> Result<Rect, OutOfWorld>
    ensures value { IfOk result (λ rect. rect ≡ square x y r) }
    ensures inside { OnOk result (lies_in (square x y r) world ≡ true) }
    ensures outside { OnErr result (lies_in (square x y r) world ≡ false) }
{
    if x < -CORNER || y < -CORNER || x >= CORNER || y >= CORNER {
        return Err(OutOfWorld);
    }
    let side = 2 * u32::from(r) + 1;
    Rect::new(rewound(x, r), rewound(y, r), side, side)
}

/// The rectangle moved by (dx, dy).
fn displaced(rect: &Rect, dx: i32, dy: i32) -> Result<Rect, OutOfWorld>
    ensures value { IfOk result (λ to. to ≡ moved rect.now dx dy) }
    ensures inside { OnOk result (lies_in (moved rect.now dx dy) world ≡ true) }
    ensures outside { OnErr result (lies_in (moved rect.now dx dy) world ≡ false) }
{
    let _whole = in_world(*rect);
    if !is_step(dx) || !is_step(dy) {
        return Err(OutOfWorld);
    }
    rect.moved(dx, dy)
}

/// The rectangle with r more columns and rows on each side.
fn grown_by(rect: &Rect, r: u8) -> Result<Rect, OutOfWorld>
    ensures value { IfOk result (λ wide. wide ≡ grown rect.now r) }
    ensures inside { OnOk result (lies_in (grown rect.now r) world ≡ true) }
    ensures outside { OnErr result (lies_in (grown rect.now r) world ≡ false) }
{
    let w = rect.w() + 2 * u32::from(r);
    let h = rect.h() + 2 * u32::from(r);
    if w > WORLD_SIDE || h > WORLD_SIDE {
        return Err(OutOfWorld);
    }
    Rect::new(rewound(rect.x(), r), rewound(rect.y(), r), w, h)
}

/// The tile in which a track is laid.
///
/// # Errors
/// `OutOfWorld` exactly where the tile or a dab of the track leaves the world.
fn tile_of_track(track: &Track, cell: TileKey) -> Result<Rect, OutOfWorld>
    ensures value { IfOk result (λ rect. rect ≡ tile cell) }
    ensures inside { OnOk result (checks (Job.Track track.now cell) ≡ true) }
    ensures outside { OnErr result (checks (Job.Track track.now cell) ≡ false) }
{
    if is_of_world(cell) && stays_in_world(track) {
        Ok(cell.rect())
    } else {
        Err(OutOfWorld)
    }
}

/// Whether the tile lies in the world.
fn is_of_world(cell: TileKey) -> bool
    ensures value { result ≡ lies_in (tile cell) world }
    ensures known { result ≡ true → IsWorldKey cell }
{
    -FAR_KEY <= cell.col && cell.col < FAR_KEY && -FAR_KEY <= cell.row && cell.row < FAR_KEY
}

/// Whether all dabs of the track lie in the world. As there is one at each of its points, and the
/// others stand between these, the points alone are looked at.
fn stays_in_world(track: &Track) -> bool
    ensures { result ≡ list_all (λ a. lies_in a world) (squares track.now) }
{
    let r = track.stamp().r;
    for point in track.points() {
        if !point_stays_in_world(*point, r) {
            return false;
        }
    }
    true
}

/// Whether the square of side 2r + 1 round the point lies in the world.
fn point_stays_in_world(point: (i16, i16), r: u8) -> bool
    ensures { result ≡ lies_in (square point.0 point.1 r) world }
{
    square_round(i32::from(point.0), i32::from(point.1), r).is_ok()
}

/// The column or row that lies r before x.
fn rewound(x: i32, r: u8) -> i32
    requires low { world.x ≤ℤ x }
    requires high { x ≤ℤ pos 16383 }
    ensures { result ≡ x -ℤ pos r }
{
    x - i32::from(r)
}

/// Whether two points of the world can lie d columns or rows apart.
fn is_step(d: i32) -> bool
    ensures { result ≡ (int_le (negsuc 32766) d && int_le d (pos 32767)) }
{
    -32767 <= d && d <= 32767
}
