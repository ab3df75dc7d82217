use doc_model::Command;

/// A command of an artist.
#[derive(Clone, Copy, Debug, PartialEq, Eq)]
pub struct Signed {
    pub artist: u32,
    pub command: Command,
}
