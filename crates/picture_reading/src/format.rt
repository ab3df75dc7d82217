//! Pixel formats.

ghost use Rattle.std.specs.Prelude.{◌≡◌};
ghost use Rattle.picture_reading.specs.Formats.{size};

/// The bytes of a pixel, in memory order.
#[derive(Clone, Copy, Debug, PartialEq, Eq)]
pub enum Format {
    /// Red, green and blue of the pixel on the paper, 3 bytes.
    RgbOnPaper,
    /// Blue, green and red of the pixel on the paper, and 255: Cairo's RGB24 and Qt's RGB32 where numbers begin
    /// with their lowest byte.
    BgrxOnPaper,
    /// Red, green, blue and alpha, not premultiplied: PNG's.
    Rgba,
    /// Blue, green and red, each times alpha / 255 to the nearest whole number, and alpha: Cairo's ARGB32 and
    /// Qt's ARGB32_Premultiplied where numbers begin with their lowest byte.
    BgraPremultiplied,
}

impl Format {
    /// How many bytes a pixel takes: 3 or 4.
    pub fn size(self) -> usize
        ensures { result ≡ size self }
    {
        match self {
            Format::RgbOnPaper => 3,
            Format::BgrxOnPaper | Format::Rgba | Format::BgraPremultiplied => 4,
        }
    }
}
