//! Which events may happen, and what they leave, is told without pixels.

ghost use Rattle.machine_model.specs.BlankLaws.{PixelsDontCount};

/// In states that differ in pixels alone the same events may happen, and leave states that differ in pixels alone.
pub fn pixels_dont_count()
    ensures { PixelsDontCount }
{}
