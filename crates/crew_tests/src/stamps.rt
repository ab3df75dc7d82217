//! Stamps of what was taken from a desk.

ghost use Rattle.std.specs.Prelude.{◌≡◌};

use stamped_desk::{StampNaming, Stamps, Unnamed};
use std::marker::Brand;
use std::test::*;

/// Whether two stamps are made and known, and each is the same as its copy alone.
fn are_told_apart<J: StampNaming>(unnamed: Unnamed<u32>) -> bool
    requires { unnamed ≡ J.book }
{
    let mut stamps: Stamps<J, u32> = unnamed.named();
    let (Some(first), Some(second)) = (stamps.stamp(&7), stamps.stamp(&7)) else {
        return false;
    };
    let are_known = stamps.knows(&first) && stamps.knows(&second);
    let are_same = first.is_same(&second) || second.is_same(&first);
    are_known && !are_same && first.is_same(&first.again())
}

#[test]
fn stamps_are_told_apart(rt: HostRuntime) {
    assert!(rt; are_told_apart::<Brand>(Unnamed::new()));
}
