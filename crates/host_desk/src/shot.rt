//! A picture that was taken of a desk.

ghost use Rattle.std.specs.Prelude.{◌≡◌, ◌≤◌, ◌<◌, ◌+◌, ◌*◌, ◌++◌, length, drop};
ghost use Rattle.host_desk.specs.Views.{PartOf, part_colours};

use frame_core::Frame;
use geom_core::TILE_SIDE;
use host_lines::Answer;
use std::marker::Model;

/// How many bytes the colours of the longest row are.
const ROW_BYTES: usize = 3 * 2048;

/// The root's picture as it was when the shot was taken. Contracts see the frame's scene.
#[derive(Drop)]
pub struct Shot {
    pub(crate) frame: Frame,
}

impl Model for Shot {
    ghost use Rattle.frame_core.specs.Frames.{Scene, scene_code};

    ghost Value = { Scene };

    ghost coded = { scene_code };

    ghost view = { λ s. s.frame };
}

impl Shot {
    /// A frame, as a shot.
    pub(crate) fn of(frame: Frame) -> Shot
        ensures { result ≡ frame }
    {
        Shot { frame }
    }

    /// Writes red, green and blue of `w` pixels from (x, y) to the right, on the paper, to the first places.
    ///
    /// It answers `Done`; `Outside` where `w` is 0 or not all of them are points of the canvas; `NoRoom`. But for
    /// `Done` nothing is written.
    pub fn row(&self, x: u16, y: u16, w: u16, out: &mut [u8]) -> Answer
        ensures { PartOf self.now x y w out.old result out.new }
    {
        if w == 0 || u32::from(x) + u32::from(w) > u32::from(self.frame.width()) {
            return Answer::Outside;
        }
        if y >= self.frame.height() {
            return Answer::Outside;
        }
        if out.len() < 3 * usize::from(w) {
            return Answer::NoRoom;
        }
        self.copy_part(x, y, w, out);
        Answer::Done
    }

    /// The same of pixels that are there, with room for them. It goes by the tiles that they lie in: many of a tile's
    /// pixels are laid on the paper at once.
    fn copy_part(&self, x: u16, y: u16, w: u16, out: &mut [u8])
        requires columns { x + w ≤ self.now.width }
        requires row { y < self.now.height }
        requires room { 3 * w ≤ length out.old }
        ensures { out.new ≡ part_colours self.now x y w ++ drop (3 * w) out.old }
    {
        let side = TILE_SIDE as u16;
        let _sides = self.frame.width();
        let mut row = [0; ROW_BYTES];
        self.frame
            .columns_into(x / side, (x + w).div_ceil(side), y, &mut row);
        let from = 3 * usize::from(x);
        let count = 3 * usize::from(w);
        out[..count].copy_from_slice(&row[from..from + count]);
    }
}
