//! One block, or two.

ghost use Rattle.std.specs.Prelude.{◌≡◌, None};

use tile_core::Block;

/// One block, or two.
#[derive(Drop)]
pub struct Blocks {
    pub first: Block,
    pub second: Option<Block>,
}

/// One block with no other.
pub fn alone(first: Block) -> Blocks
    ensures first { result.first ≡ first }
    ensures second { result.second ≡ None }
{
    Blocks {
        first,
        second: None,
    }
}
