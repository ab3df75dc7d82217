//! Rows of pixels on an opaque paper.

ghost use Rattle.std.specs.Prelude.{◌≡◌, ◌<◌, ℕ, length, slice_index_or};
ghost use Rattle.pixel_core.specs.Rgba.{clear};
ghost use Rattle.pixel_core.specs.declared.blending.Op.TheVariants.{Over};
ghost use Rattle.pixel_core.specs.Compose.{compose as composed};

use crate::mixing::over_opaque;
use pixel_core::Pixel;

/// Writes each source, laid over an opaque paper at full strength, to its place.
pub fn lay_on_paper(sources: &[Pixel], paper: Pixel, laid: &mut [Pixel])
    requires opaque { paper.a ≡ 255 }
    requires each { length sources.now ≡ length laid.old }
    ensures { (k : ℕ) → k < length laid.old → slice_index_or laid.new k clear
        ≡ composed Over (slice_index_or sources.now k clear) paper 255 }
{
    for k in 0..sources.len() {
        laid[k] = over_opaque(sources[k], paper);
    }
}
