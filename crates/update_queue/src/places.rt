//! Passes over the places of the list.

ghost use Rattle.std.specs.Prelude.{◌≡◌, ◌≤◌, ◌<◌, ◌+◌, ◌++◌, ◌∷◌, [], ◌&&◌, true, false, nat_le, length, map, slice_get, slice_set, Some, OnSome, IfSome, IfNone};
ghost use Rattle.std.specs.List.{list_any, position, position_or_len};
ghost use Rattle.std.specs.Bool.{OnTrue, OnFalse};
ghost use Rattle.geom_core.specs.Areas.{lies_in, meets};
ghost use Rattle.geom_core.specs.Overlaps.{bound};
ghost use Rattle.geom_core.specs.Grid.{parts};
ghost use Rattle.geom_core.specs.Cells.{cells_of};
ghost use Rattle.doc_model.specs.Updates.{same_walk, one_cell, patch, merged, merge_all, new_parts, has_place, bound_all, replaced, added};
ghost use Rattle.doc_model.specs.Queues.{all_unlike};
ghost use Rattle.doc_model.specs.declared.canvas.Patch.{Patch};
ghost use Rattle.doc_model.specs.declared.canvas.Walk.TheVariants as walks;
ghost use Rattle.update_queue.specs.Waiting.{avoids, largest, IsSpread};

use arrayvec::ArrayVec;
use doc_model::{Patch, Walk};
use geom_core::Rect;

/// Whether the rectangles' corners lie in one cell.
fn one_cell(a: &Rect, b: &Rect) -> bool
    ensures { result ≡ one_cell a.now b.now }
{
    a.left() / 256 == b.left() / 256 && a.top() / 256 == b.top() / 256
}

/// Whether the patch has the walk in the part's cell.
fn takes_in(patch: &Patch, walk: Walk, part: &Rect) -> bool
    ensures { result ≡ (same_walk patch.now.walk walk && one_cell patch.now.rect part.now) }
{
    patch.walk == walk && one_cell(&patch.rect, part)
}

/// The first place whose patch has the walk in the part's cell.
fn first_place_of(patches: &[Patch], walk: Walk, part: &Rect) -> Option<usize>
    ensures { result ≡ position (λ p. same_walk p.walk walk && one_cell p.rect part.now)
        patches.now }
{
    for i in 0..patches.len() {
        if takes_in(&patches[i], walk, part) {
            return Some(i);
        }
    }
    None
}

/// The place of a patch that takes the part in, where one does at most, from 0. It looks at the guess first.
fn place_of(patches: &[Patch], walk: Walk, part: &Rect, guess: usize) -> Option<usize>
    requires unlike { all_unlike patches.now ≡ true }
    ensures { result ≡ position (λ p. same_walk p.walk walk && one_cell p.rect part.now)
        patches.now }
{
    if guess < patches.len() && takes_in(&patches[guess], walk, part) {
        return Some(guess);
    }
    first_place_of(patches, walk, part)
}

/// Makes the patch at a place the bounding rectangle of itself and the part.
fn grow(patches: &mut [Patch], i: usize, part: &Rect)
    requires { i < length patches.old }
    ensures { (p : Patch) → slice_get patches.old i ≡ Some p → patches.new ≡ slice_set patches.old i
        (patch p.walk (bound p.rect part.now)) }
{
    patches[i].rect = patches[i].rect.bound(part);
}

/// Lets the patch with the part's walk in its cell take the part in, or gives the part a place at the end, and tells
/// the place. None where there is neither such a patch nor a place; then nothing changes. The guess says where to look
/// first.
fn add_part(
    patches: &mut ArrayVec<Patch, 64>,
    walk: Walk,
    part: &Rect,
    guess: usize,
) -> Option<usize>
    requires unlike { all_unlike patches.old.items ≡ true }
    ensures merged { has_place walk part.now patches.old.items ≡ true → patches.new.items
        ≡ map (merged walk part.now) patches.old.items }
    ensures placed { OnSome result (has_place walk part.now patches.old.items ≡ false
        → patches.new.items ≡ patches.old.items ++ patch walk part.now ∷ []) }
    ensures few { length patches.new.items ≤ 64 }
    ensures full { IfNone result ((has_place walk part.now patches.old.items ≡ false)
        × (length patches.old.items ≡ 64) × (patches.new.items ≡ patches.old.items)) }
{
    match place_of(patches.as_slice(), walk, part, guess) {
        Some(i) => {
            grow(patches.as_mut_slice(), i, part);
            Some(i)
        }
        None => {
            if patches.is_full() {
                return None;
            }
            let i = patches.len();
            patches.push(Patch { walk, rect: *part });
            Some(i)
        }
    }
}

/// Adds a rectangle of the largest canvas part by part. False where not all parts find a place; the bounding rectangle
/// of the rectangle and all patches is then what it was. Each part is looked for behind the one before first, and the
/// first of them where that of the last rectangle was.
fn add_parts(patches: &mut ArrayVec<Patch, 64>, recent: &mut usize, walk: Walk, rect: &Rect) -> bool
    requires inside { lies_in rect.now largest ≡ true }
    requires unlike { all_unlike patches.old.items ≡ true }
    requires few { length patches.old.items ≤ 64 }
    ensures fits { result ≡ nat_le (length patches.old.items + length
        (map (patch walk) (new_parts walk (parts rect.now) patches.old.items))) 64 }
    ensures added { OnTrue result (patches.new.items ≡ merge_all walk (parts rect.now)
        patches.old.items ++ map (patch walk) (new_parts walk (parts rect.now) patches.old.items)) }
    ensures bound { OnFalse result (bound_all rect.now patches.new.items ≡ bound_all rect.now
        patches.old.items) }
{
    let mut guess = *recent;
    for i in 0..part_count(rect) {
        let Some(place) = add_part(patches, walk, &rect.cell_at(i), guess) else {
            return false;
        };
        if i == 0 {
            *recent = place;
        }
        guess = place.saturating_add(1);
    }
    true
}

/// The bounding rectangle of a rectangle and all patches.
fn bound_all(patches: &[Patch], rect: Rect) -> Rect
    ensures { result ≡ bound_all rect patches.now }
{
    let mut all = rect;
    for p in patches {
        all = all.bound(&p.rect);
    }
    all
}

/// How many parts a rectangle of the largest canvas has: one in each cell that it meets.
fn part_count(rect: &Rect) -> u32
    requires inside { lies_in rect.now largest ≡ true }
    ensures value { result ≡ length (parts rect.now) }
    ensures few { result ≤ 64 }
    ensures cells { parts rect.now ≡ cells_of rect.now }
{
    // A rectangle has points, as its sides tell.
    let _columns = rect.w();
    let _rows = rect.h();
    rect.cell_count()
}

/// Puts a patch of all groups for each part of a rectangle of the largest canvas in the place of what was there.
fn fill(patches: &mut ArrayVec<Patch, 64>, rect: &Rect)
    requires inside { lies_in rect.now largest ≡ true }
    ensures { patches.new.items ≡ map (patch walks.All) (parts rect.now) }
{
    patches.clear();
    for i in 0..part_count(rect) {
        patches.push(Patch {
            walk: Walk::All,
            rect: rect.cell_at(i),
        });
    }
}

/// Begins anew with patches of all groups on the cells of the bounding rectangle of a rectangle and all patches, where
/// that lies in the largest canvas. Gives that rectangle where its parts take all places.
pub fn begin_anew(patches: &mut ArrayVec<Patch, 64>, rect: &Rect) -> Option<Rect>
    requires inside { lies_in (bound_all rect.now patches.old.items) largest ≡ true }
    ensures value { patches.new.items ≡ replaced patches.old.items rect.now }
    ensures spread { IfSome result (λ a. IsSpread a patches.new.items) }
{
    let all = bound_all(patches.as_slice(), *rect);
    fill(patches, &all);
    patches.is_full().then_some(all)
}

/// Adds a rectangle of the largest canvas. Where the list begins anew, and all its places are taken then, gives the
/// rectangle whose parts take them. `recent` says where to look first.
pub fn add_rect(
    patches: &mut ArrayVec<Patch, 64>,
    recent: &mut usize,
    walk: Walk,
    rect: &Rect,
) -> Option<Rect>
    requires inside { lies_in rect.now largest ≡ true }
    requires all { lies_in (bound_all rect.now patches.old.items) largest ≡ true }
    requires unlike { all_unlike patches.old.items ≡ true }
    requires few { length patches.old.items ≤ 64 }
    ensures value { patches.new.items ≡ added patches.old.items walk rect.now }
    ensures spread { IfSome result (λ a. IsSpread a patches.new.items) }
{
    if add_parts(patches, recent, walk, rect) {
        None
    } else {
        begin_anew(patches, rect)
    }
}

/// Whether the rectangle meets one of the others.
fn meets_some(rect: &Rect, others: &[Rect]) -> bool
    ensures { result ≡ list_any (meets rect.now) others.now }
{
    others.iter().any(|other| rect.meets(other))
}

/// Whether the patch meets none of the rectangles.
fn avoids(patch: &Patch, running: &[Rect]) -> bool
    ensures { result ≡ avoids running.now patch.now }
{
    !meets_some(&patch.rect, running)
}

/// The place of the first patch that meets none of the rectangles, or how many patches there are.
pub fn first_free(patches: &[Patch], running: &[Rect]) -> usize
    ensures { result ≡ position_or_len (avoids running.now) patches.now }
{
    for i in 0..patches.len() {
        if avoids(&patches[i], running) {
            return i;
        }
    }
    patches.len()
}
