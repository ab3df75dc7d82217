//! Pixels and rectangles worked out by hand, and by the words of others.

ghost use Rattle.std.specs.Prelude.{◌≡◌, ◌≤◌, ◌==◌, ◌&&◌, if◌then◌else◌};
ghost use Rattle.picture_reading.specs.Pictures.{Shown};

use crate::{Format, Layout, Picture, Unreadable, Window, changes, read};
use pixel_core::Pixel;

/// One pixel at a spot, and another one everywhere else, on white paper.
#[derive(Drop)]
struct Spotted {
    width: u16,
    height: u16,
    field: Pixel,
    spot: (u16, u16),
    there: Pixel,
    ghost columns: { width ≤ 2048 },
    ghost rows: { height ≤ 2048 },
}

impl Picture for Spotted {
    ghost shown = { λ p. record {
      width = p.width;
      height = p.height;
      paper = record { r = 255; g = 255; b = 255; a = 255 };
      pixel = λ x y. if (x == p.spot.0) && (y == p.spot.1) then p.there else p.field;
    } };

    fn width(&self) -> u16 {
        self.width
    }

    fn height(&self) -> u16 {
        self.height
    }

    fn paper(&self) -> Pixel {
        Pixel::new(255, 255, 255, 255)
    }

    fn pixels_into(&self, x: u16, y: u16, out: &mut [Pixel]) {
        for k in 0..out.len() {
            out[k] = self.pixel(x + k as u16, y);
        }
    }
}

impl Spotted {
    /// The pixel of a column and a row.
    fn pixel(&self, x: u16, y: u16) -> Pixel
        ensures { result ≡ (if (x == self.now.spot.0) && (y == self.now.spot.1) then self.now.there
            else self.now.field) }
    {
        if x == self.spot.0 && y == self.spot.1 {
            self.there
        } else {
            self.field
        }
    }
}

/// A picture of these sides, clear but for a pixel at a spot.
fn with_spot(width: u16, height: u16, spot: (u16, u16), there: Pixel) -> Spotted
    requires width { width ≤ 2048 }
    requires height { height ≤ 2048 }
    ensures width { result.width ≡ width }
    ensures height { result.height ≡ height }
{
    let field = Pixel::CLEAR;
    Spotted {
        width,
        height,
        field,
        spot,
        there,
    }
}

/// Cairo's manual has half transparent red as 0x80800000, not 0x80ff0000; a PNG isn't premultiplied. The other
/// products are worked out by hand: 201 * 100 / 255 is 78.8, 100 * 100 / 255 is 39.2, 50 * 100 / 255 is 19.6.
#[test]
fn pixels_in_each_format(rt: HostRuntime) {
    let half_red = Pixel::new(255, 0, 0, 128);
    let thin = Pixel::new(201, 100, 50, 100);
    let opaque = Pixel::new(1, 2, 3, 255);
    let table = [
        (half_red, Format::RgbOnPaper, [255, 127, 127, 9]),
        (half_red, Format::BgrxOnPaper, [127, 127, 255, 255]),
        (half_red, Format::Rgba, [255, 0, 0, 128]),
        (half_red, Format::BgraPremultiplied, [0, 0, 128, 128]),
        (thin, Format::Rgba, [201, 100, 50, 100]),
        (thin, Format::BgraPremultiplied, [20, 39, 79, 100]),
        (opaque, Format::RgbOnPaper, [1, 2, 3, 9]),
        (opaque, Format::BgrxOnPaper, [3, 2, 1, 255]),
        (opaque, Format::BgraPremultiplied, [3, 2, 1, 255]),
        (Pixel::CLEAR, Format::RgbOnPaper, [255, 255, 255, 9]),
        (Pixel::CLEAR, Format::BgraPremultiplied, [0, 0, 0, 0]),
    ];
    let window = Window {
        x: 2,
        y: 1,
        w: 1,
        h: 1,
    };
    for (pixel, format, wanted) in table {
        let picture = with_spot(3, 2, (2, 1), pixel);
        let mut out = [9; 4];
        let stride = format.size();
        let told = read(&picture, window, Layout { format, stride }, &mut out);
        assert!(rt; told.is_ok() && out == wanted);
    }
}

/// Two rows of two pixels across the seam of two tiles, 11 bytes apart, and what is refused.
#[test]
fn rows_and_refusals(rt: HostRuntime) {
    let picture = with_spot(130, 70, (64, 64), Pixel::new(10, 20, 30, 255));
    let format = Format::Rgba;
    let seam = Window {
        x: 63,
        y: 63,
        w: 2,
        h: 2,
    };
    let mut out = [9; 20];
    let told = read(&picture, seam, Layout { format, stride: 11 }, &mut out);
    assert!(rt; told.is_ok());
    let wanted = [
        0, 0, 0, 0, 0, 0, 0, 0, 9, 9, 9, 0, 0, 0, 0, 10, 20, 30, 255, 9,
    ];
    assert!(rt; out == wanted);
    let table = [
        (Window { w: 0, ..seam }, 11, Unreadable::OutOfBounds),
        (Window { x: -1, ..seam }, 11, Unreadable::OutOfBounds),
        (Window { x: 129, ..seam }, 11, Unreadable::OutOfBounds),
        (Window { y: 69, ..seam }, 2, Unreadable::OutOfBounds),
        (
            Window {
                h: u32::MAX,
                ..seam
            },
            11,
            Unreadable::OutOfBounds,
        ),
        (seam, 7, Unreadable::BufferTooSmall),
        (seam, 13, Unreadable::BufferTooSmall),
        (seam, usize::MAX, Unreadable::BufferTooSmall),
    ];
    for (window, stride, wanted) in table {
        let told = read(&picture, window, Layout { format, stride }, &mut out);
        assert!(rt; told == Err(wanted));
    }
    assert!(rt; out == wanted);
}

/// The spots lie in the tile right of the seam at 128, of which two columns are on the canvas, and in the first one.
#[test]
fn changed_tiles(rt: HostRuntime) {
    let red = Pixel::new(255, 0, 0, 255);
    let table = [
        ((129, 0), (129, 0), None),
        ((129, 0), (129, 1), Some((128, 0, 2, 64))),
        ((129, 69), (129, 69), None),
        ((0, 0), (129, 69), Some((0, 0, 130, 70))),
        ((70, 64), (70, 65), Some((64, 64, 64, 6))),
    ];
    for (spot, before, wanted) in table {
        let changed = changes(
            &with_spot(130, 70, spot, red),
            &with_spot(130, 70, before, red),
        );
        assert!(rt; changed.map(|p| (p.x, p.y, p.w, p.h)) == wanted);
    }
}
