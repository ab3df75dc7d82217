//! What the layers above rest on, each law as the contract of a function that does nothing.

ghost use Rattle.paint_device.specs.Laws.{LayerHasPixels, LayerHasDefault, SeenAfterExchange, ReadyKeepsPixels};

/// A device is a layer of the document: it has the layer's default pixel, and at each point the
/// layer's pixel.
pub fn layer_of_sheet()
    ensures pixels { LayerHasPixels }
    ensures default_pixel { LayerHasDefault }
{}

/// With another tile, or none, under a key the points of that key are the tile's pixels or the
/// default pixel, and all other points stay.
pub fn seen_after_exchange()
    ensures { SeenAfterExchange }
{}

/// A key that comes in changes no pixel.
pub fn ready_keeps_pixels()
    ensures { ReadyKeepsPixels }
{}
