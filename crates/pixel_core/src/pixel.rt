//! Pixels of eight bits a channel.

ghost use Rattle.std.specs.Prelude.{◌≡◌};
ghost use Rattle.std.proofs.Common.{rules};
ghost use Rattle.std.specs.Cmp.Rules.{comparing};
ghost use Rattle.pixel_core.specs.Rgba.{if_canonical};
ghost use Rattle.pixel_core.specs.Canonical.{IsCanonical};
ghost use Rattle.pixel_core.specs.Words.{bytes_of};

use std::marker::Model;

/// A pixel: red, green, blue and alpha in 255ths, colours not premultiplied. It is canonical: where
/// its alpha is 0 all four are 0, so that pixels that look alike are equal.
#[derive(Clone, Copy, Debug)]
pub struct Pixel {
    /// The four bytes as one number: red counts ones, green 2^8, blue 2^16 and alpha 2^24.
    word: u32,
}

impl Model for Pixel {
    ghost use Rattle.std.specs.Prelude.{ℕ};
    ghost use Rattle.std.proofs.Common.{ap};
    ghost use Rattle.pixel_core.specs.Rgba.{Rgba};
    ghost use Rattle.pixel_core.specs.Canonical.{IsCanonical};
    ghost use Rattle.pixel_core.specs.Words.{pixel_of, word_of, word_back};

    ghost Value = { Rgba };

    ghost view = { λ p. pixel_of p.word };

    ghost invariant = { λ p. IsCanonical (pixel_of p.word) };

    ghost inverse = { λ p. record { word = word_of p } };

    ghost inverse_ok = { λ p h. ap (λ w. record { word = w }) (word_back p.word) };
}

impl PartialEq for Pixel {
    ghost use Rattle.pixel_core.specs.Rgba.{same_pixel};

    ghost eq = { same_pixel };

    ghost laws = { Prim.search (comparing, rules) };

    #[inline]
    fn eq(&self, other: &Pixel) -> bool {
        self.word == other.word
    }
}

impl Eq for Pixel {
    ghost laws = { Prim.search (comparing, rules) };
}

impl Pixel {
    /// The pixel that covers nothing: all four bytes are 0.
    pub const CLEAR: Pixel = Pixel { word: 0 };

    /// The pixel of these bytes, or the clear pixel where `a` is 0.
    #[inline]
    pub fn new(r: u8, g: u8, b: u8, a: u8) -> Pixel
        ensures { result ≡ if_canonical r g b a }
    {
        if a == 0 {
            Pixel::CLEAR
        } else {
            Pixel {
                word: r as u32 + ((g as u32) << 8) + ((b as u32) << 16) + ((a as u32) << 24),
            }
        }
    }

    /// Red, green, blue and alpha.
    #[inline]
    pub fn bytes(self) -> [u8; 4]
        ensures value { result ≡ bytes_of self }
        ensures known { IsCanonical self }
    {
        self.word.to_le_bytes()
    }

    /// Alpha.
    #[inline]
    pub(crate) fn alpha(self) -> u8
        ensures value { result ≡ self.a }
        ensures known { IsCanonical self }
    {
        (self.word >> 24) as u8
    }
}
