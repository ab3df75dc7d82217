//! How much memory a film may take.

ghost use Rattle.std.specs.Prelude.{◌≡◌, ◌≤◌, true, OnOk};

use frame_core::Ply;
use geom_core::NoMemory;
use pixel_core::Op;
use tile_core::Tile;

/// How many tiles a film has before memory is saved: those of one of the largest canvas.
const PLENTY: usize = 1024;

/// Tells whether a tile of a frame is kept as it is, or as the layers' tiles of which it is composed. These are
/// shared with the layers and cost nothing, unless a layer is painted anew and its history forgotten. So no more
/// of them are kept than tiles were put into frames: a film takes at most twice as much as with composed tiles alone.
#[derive(Drop)]
pub(crate) struct Thrift {
    /// How many tiles were put into frames, less those of which others are composed that are kept for them.
    spare: usize,
    /// Whether the tree has changed since the newest frame, so that tiles may differ though no layer does.
    turned: bool,
}

impl Thrift {
    /// No tile was put so far.
    pub(crate) fn new() -> Thrift {
        Thrift {
            spare: 0,
            turned: false,
        }
    }

    /// The tree has changed.
    pub(crate) fn turn(&mut self) {
        self.turned = true;
    }

    /// A frame was taken.
    pub(crate) fn take(&mut self) {
        self.turned = false;
    }

    /// One more tile is put.
    pub(crate) fn earn(&mut self) {
        self.spare = self.spare.saturating_add(1);
    }

    /// Whether memory is saved.
    pub(crate) fn saves(&self) -> bool {
        self.spare > PLENTY
    }

    /// Whether a tile may be kept as these plies, where the newest frame has those before on it, whose tiles are
    /// shared where they have the same pixels. What is kept for the tile alone is paid for then.
    ///
    /// # Errors
    /// `NoMemory` only where a count of owners is full.
    pub(crate) fn pays(&mut self, plies: &mut [Ply], before: &[Ply]) -> Result<bool, NoMemory>
        ensures { OnOk result (plies.new ≡ plies.old) }
    {
        let fresh = share_tiles(plies, before)?;
        if is_one_tile(plies) || !self.may_keep(fresh) {
            return Ok(false);
        }
        self.spare -= fresh;
        Ok(true)
    }

    /// Whether so many tiles may be kept in place of one.
    fn may_keep(&self, fresh: usize) -> bool
        ensures { result ≡ true → fresh ≤ self.now.spare }
    {
        fresh <= self.spare && (fresh <= 1 || self.turned && self.spare - fresh >= PLENTY)
    }
}

/// Shares the tiles of other plies at the same places, where they have the same pixels, and tells how many tiles
/// there are beside these.
fn share_tiles(plies: &mut [Ply], before: &[Ply]) -> Result<usize, NoMemory>
    ensures { OnOk result (plies.new ≡ plies.old) }
{
    let mut fresh = 0;
    for i in 0..plies.len() {
        if !share_tile(&mut plies[i], before.get(i))? {
            fresh += 1;
        }
    }
    Ok(fresh)
}

/// Shares the tile of the other ply where it has the same pixels. Whether the ply has no tile but that.
fn share_tile(ply: &mut Ply, before: Option<&Ply>) -> Result<bool, NoMemory>
    ensures { OnOk result (ply.new ≡ ply.old) }
{
    let Ply::Tile { tile, .. } = ply else {
        return Ok(true);
    };
    match before {
        Some(Ply::Tile { tile: other, .. }) => share_same(tile, other),
        _ => Ok(false),
    }
}

/// Shares the other tile where it has the same pixels, and tells whether it has.
fn share_same(tile: &mut Tile, other: &Tile) -> Result<bool, NoMemory>
    ensures { OnOk result (tile.new ≡ tile.old) }
{
    if !tile.same(other) {
        return Ok(false);
    }
    *tile = other.share()?;
    Ok(true)
}

/// Whether the tile that is composed so is the one tile that is laid, as it is.
fn is_one_tile(plies: &[Ply]) -> bool {
    match plies {
        [Ply::Tile { op, opacity, .. }] => *opacity == 255 && *op != Op::Erase,
        _ => false,
    }
}
