//! What C passes and is told.

ghost use Rattle.std.specs.Prelude.{◌≡◌, IfSome};
ghost use Rattle.doc_model.specs.Canvases.{IsOfLimits};
ghost use Rattle.host_lines.specs.Structs.{canvas_by, canvas_told, fault_told, outcome_told, paper_by, paper_told, rect_by};

use doc_model::{Canvas, Outcome, TreeFault};
use geom_core::Rect;
use pixel_core::Pixel;

const DONE: u32 = 0;

const CANCELLED: u32 = 1;

const OVERLAP: u32 = 2;

const NO_LAYER: u32 = 3;

const NOT_PAINT: u32 = 4;

const ID_TAKEN: u32 = 5;

const NO_NODE: u32 = 6;

const NOT_GROUP: u32 = 7;

const INTO_ITSELF: u32 = 8;

const TREE_FULL: u32 = 9;

const TOO_DEEP: u32 = 10;

const BAD_PLACE: u32 = 11;

const NO_UNDO: u32 = 12;

const NO_REDO: u32 = 13;

/// 1 to 2048 columns and rows, and the paper as 0xRRGGBB.
#[repr(C)]
#[derive(Clone, Copy)]
pub struct StrokesCanvas {
    pub w: u32,
    pub h: u32,
    pub paper: u32,
}

/// What a dab lays.
#[repr(C)]
#[derive(Clone, Copy)]
pub struct StrokesBrush {
    /// Red, green, blue and alpha, the red highest. With an alpha of 0 it is the clear pixel.
    pub colour: u32,
    /// 0 to 128 pixels.
    pub radius: u8,
    /// 1 where it is weaker towards its rim, or else 0.
    pub soft: u8,
    /// The operation, from 0: over, erase, multiply, screen, addition.
    pub op: u8,
    /// In 255ths.
    pub strength: u8,
}

/// A point of a path: its column and its row.
#[repr(C)]
#[derive(Clone, Copy)]
pub struct StrokesPoint {
    pub x: i32,
    pub y: i32,
}

/// Points from (x, y) on, to the right and downwards; none where w is 0.
#[repr(C)]
#[derive(Clone, Copy)]
pub struct StrokesRect {
    pub x: i32,
    pub y: i32,
    pub w: u32,
    pub h: u32,
}

/// How many commands were fed, outcomes came, and frames were exported so far.
#[repr(C)]
#[derive(Clone, Copy)]
pub struct StrokesCount {
    pub commands: u64,
    pub outcomes: u64,
    pub frames: u64,
}

/// What became of an entry. Where nothing is told by them, `first` and `second` are 0.
#[repr(C)]
#[derive(Clone, Copy)]
pub struct StrokesOutcome {
    pub what: u32,
    pub first: u32,
    pub second: u32,
}

/// A rectangle, or one without points.
pub fn rect_of(rect: &Option<Rect>) -> StrokesRect
    ensures { result ≡ rect_by rect.now }
{
    match rect {
        Some(rect) => StrokesRect {
            x: rect.x(),
            y: rect.y(),
            w: rect.w(),
            h: rect.h(),
        },
        None => StrokesRect {
            x: 0,
            y: 0,
            w: 0,
            h: 0,
        },
    }
}

/// The canvas of these numbers. None where one is outside its range.
pub fn canvas_within(canvas: &StrokesCanvas) -> Option<Canvas>
    ensures value { result ≡ canvas_by canvas.now }
    ensures limits { IfSome result IsOfLimits }
{
    let StrokesCanvas { w, h, paper } = *canvas;
    if w < 1 || w > 2048 || h < 1 || h > 2048 || paper > 0xffffff {
        return None;
    }
    Some(Canvas {
        w: w as u16,
        h: h as u16,
        paper: paper_of(paper),
    })
}

/// The opaque pixel of a colour.
fn paper_of(paper: u32) -> Pixel
    ensures value { result ≡ paper_by paper }
    ensures opaque { result.a ≡ 255 }
{
    let r = (paper >> 16 & 255) as u8;
    let g = (paper >> 8 & 255) as u8;
    let b = (paper & 255) as u8;
    Pixel::new(r, g, b, 255)
}

/// The numbers of a canvas.
pub fn canvas_of(canvas: &Canvas) -> StrokesCanvas
    ensures { result ≡ canvas_told canvas.now }
{
    StrokesCanvas {
        w: u32::from(canvas.w),
        h: u32::from(canvas.h),
        paper: colour_of(canvas.paper),
    }
}

/// Red, green and blue as one number, the red highest.
fn colour_of(paper: Pixel) -> u32
    ensures { result ≡ paper_told paper }
{
    let [r, g, b, _] = paper.bytes();
    65536 * u32::from(r) + 256 * u32::from(g) + u32::from(b)
}

/// The numbers of an outcome.
pub fn outcome_of(outcome: &Outcome) -> StrokesOutcome
    ensures { result ≡ outcome_told outcome.now }
{
    let (what, first, second) = match outcome {
        Outcome::Done => (DONE, 0, 0),
        Outcome::Cancelled => (CANCELLED, 0, 0),
        Outcome::Overlap { first, second } => (OVERLAP, *first, *second),
        Outcome::NoLayer(id) => (NO_LAYER, u32::from(*id), 0),
        Outcome::NotPaint(id) => (NOT_PAINT, u32::from(*id), 0),
        Outcome::Tree(fault) => fault_of(fault),
        Outcome::NothingToUndo => (NO_UNDO, 0, 0),
        Outcome::NothingToRedo => (NO_REDO, 0, 0),
    };
    StrokesOutcome {
        what,
        first,
        second,
    }
}

/// The numbers of a fault of the tree.
fn fault_of(fault: &TreeFault) -> (u32, u32, u32)
    ensures { result ≡ fault_told fault.now }
{
    match fault {
        TreeFault::Taken(id) => (ID_TAKEN, u32::from(*id), 0),
        TreeFault::NoNode(id) => (NO_NODE, u32::from(*id), 0),
        TreeFault::NotGroup(id) => (NOT_GROUP, u32::from(*id), 0),
        TreeFault::IntoItself(id) => (INTO_ITSELF, u32::from(*id), 0),
        TreeFault::TreeFull(count) => (TREE_FULL, u32::from(*count), 0),
        TreeFault::TooDeep(levels) => (TOO_DEEP, u32::from(*levels), 0),
        TreeFault::BadPlace(place) => (BAD_PLACE, u32::from(*place), 0),
    }
}
