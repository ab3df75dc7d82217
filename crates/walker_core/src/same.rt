//! Whether two walks read the same.

ghost use Rattle.std.specs.Prelude.{◌≡◌, ◌≤◌, ◌<◌, ◌∷◌, ◌↔◌, [], IsTrue, length, drop, IfSome, IfNone};
ghost use Rattle.geom_core.specs.Areas.{Area};
ghost use Rattle.geom_core.specs.Keys.{IsWorldKey};
ghost use Rattle.walker_core.specs.Alike.{HasPointIn, AlikeChild, AlikeChildren, AlikeGroups};
ghost use Rattle.walker_core.specs.Sameness.{SameValues};
ghost use Rattle.walker_core.specs.Steps.{StepsOn, StopsAt, IsNext};
ghost use Rattle.walker_core.specs.Views.{child_of, children_in};

use crate::gathered::Source;
use doc_model::{Look, Patch};
use geom_core::{Rect, TileKey};

/// Walks that read the same on a tile have the same values there.
pub fn same_values()
    ensures { SameValues }
{}

/// Whether these are the same patch.
pub(crate) fn same_patch(a: &Patch, b: &Patch) -> bool
    ensures { IsTrue result ↔ (a.now ≡ b.now) }
{
    a == b
}

/// Whether these are the same groups.
pub(crate) fn same_path(a: &[u16], b: &[u16]) -> bool
    ensures { IsTrue result ↔ (a.now ≡ b.now) }
{
    a == b
}

/// Whether each of the groups has the same children in both, on what the rectangle has of the tile.
pub(crate) fn same_groups(
    xs: &[Source],
    ys: &[Source],
    path: &[u16],
    key: TileKey,
    rect: &Rect,
) -> bool
    requires key { IsWorldKey key }
    requires met { HasPointIn rect.now key }
    ensures { IsTrue result ↔ AlikeGroups rect.now key path.now xs.now ys.now }
{
    for i in 0..path.len() {
        if !same_children(xs, ys, path[i], key, rect) {
            return false;
        }
    }
    true
}

/// Whether the group has the same children in both.
fn same_children(xs: &[Source], ys: &[Source], group: u16, key: TileKey, rect: &Rect) -> bool
    requires key { IsWorldKey key }
    requires met { HasPointIn rect.now key }
    ensures { IsTrue result
        ↔ AlikeChildren rect.now key (children_in rect.now group xs.now)
        (children_in rect.now group ys.now) }
{
    let mut from = 0;
    for i in 0..xs.len() {
        if xs[i].group == group {
            match behind_same(&xs[i], ys, from, key, rect) {
                Some(to) => from = to,
                None => return false,
            }
        }
    }
    match next_child(ys, from, group) {
        Some(_at) => false,
        None => true,
    }
}

/// The place behind the next child of x's group, from a place on, where that is the same child as x.
fn behind_same(x: &Source, ys: &[Source], from: usize, key: TileKey, rect: &Rect) -> Option<usize>
    requires key { IsWorldKey key }
    requires met { HasPointIn rect.now key }
    requires from { from ≤ length ys.now }
    ensures inside { IfSome result (λ to. to ≤ length ys.now) }
    ensures same { IfSome result (StepsOn rect.now key x.now ys.now from) }
    ensures other { IfNone result (StopsAt rect.now key x.now ys.now from) }
{
    match next_child(ys, from, x.group) {
        Some(at) => {
            if same_child(x, &ys[at], key, rect) {
                Some(at + 1)
            } else {
                None
            }
        }
        None => None,
    }
}

/// Where the group's next child stands, from a place on.
fn next_child(sources: &[Source], from: usize, group: u16) -> Option<usize>
    requires { from ≤ length sources.now }
    ensures inside { IfSome result (λ at. at < length sources.now) }
    ensures next { IfSome result (IsNext group sources.now from) }
    ensures none { IfNone result
        ((rect : Area) → children_in rect group (drop from sources.now) ≡ []) }
{
    for at in from..sources.len() {
        if sources[at].group == group {
            return Some(at);
        }
    }
    None
}

/// Whether both have the same id and look, and the same pixels on what the rectangle has of the tile.
fn same_child(x: &Source, y: &Source, key: TileKey, rect: &Rect) -> bool
    requires key { IsWorldKey key }
    requires met { HasPointIn rect.now key }
    ensures { IsTrue result
        ↔ AlikeChild rect.now key (child_of rect.now x.now) (child_of rect.now y.now) }
{
    if x.id != y.id {
        return false;
    }
    if !same_look(x.look, y.look) {
        return false;
    }
    x.shot.same_in(&y.shot, key, rect)
}

fn same_look(a: Look, b: Look) -> bool
    ensures { IsTrue result ↔ (a ≡ b) }
{
    a == b
}
