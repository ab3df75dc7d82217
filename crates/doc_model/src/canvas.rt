//! What is shown, and which of it has to be composed anew.

ghost use Rattle.std.specs.Prelude.{◌≡◌};
ghost use Rattle.doc_model.specs.Canvases.{IsOfLimits};
ghost use Rattle.doc_model.specs.Picture.{canvas_area};

use geom_core::Rect;
use pixel_core::Pixel;

/// The part of the world that is shown, with its corner at (0, 0), and what lies under it.
#[derive(Clone, Copy, Debug, PartialEq, Eq)]
pub struct Canvas {
    /// How many columns it has, 1 to 2048 within the limits.
    pub w: u16,
    /// How many rows it has, 1 to 2048 within the limits.
    pub h: u16,
    /// The pixel that lies under the picture everywhere, opaque within the limits.
    pub paper: Pixel,
}

impl Canvas {
    /// The points that are shown.
    pub fn rect(&self) -> Rect
        requires { IsOfLimits self.now }
        ensures { result ≡ canvas_area self.now }
    {
        Rect::new(0, 0, u32::from(self.w), u32::from(self.h)).unwrap()
    }
}

/// Which groups an update composes anew.
#[derive(Clone, Copy, Debug, PartialEq, Eq)]
pub enum Walk {
    /// That group and those above it, up to the root.
    Up(u16),
    /// All groups, each after those in it.
    All,
}

/// An update that waits: the groups and the rectangle.
#[derive(Clone, Copy, Debug, PartialEq, Eq)]
pub struct Patch {
    /// Which groups are composed anew.
    pub walk: Walk,
    /// Where they are.
    pub rect: Rect,
}

/// All groups on the point (0, 0). It fills the unused places of lists of a fixed capacity.
impl Default for Patch {
    fn default() -> Patch {
        Patch {
            walk: Walk::All,
            rect: Rect::default(),
        }
    }
}
