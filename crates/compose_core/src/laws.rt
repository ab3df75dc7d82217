//! What is proved of the definitions, as the contract of a function that does nothing.

ghost use Rattle.compose_core.specs.Children.{PictureOfPictures};

/// A group's picture, nested groups included, is that of its children's pictures.
pub fn group_of_pictures()
    ensures { PictureOfPictures }
{}
