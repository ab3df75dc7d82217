//! The lower children of a group as one picture: what lies below all that a brush changes.

ghost use Rattle.std.specs.Prelude.{◌≡◌, ◌≤◌, ◌∷◌, length, IfOk, IfSome, OnOk};
ghost use Rattle.pixel_core.specs.Rgba.{clear};
ghost use Rattle.geom_core.specs.Areas.{Area, Point};
ghost use Rattle.machine_model.specs.Groups.{on};
ghost use Rattle.compose_core.specs.Piles.{IsPile, pile_at};
ghost use Rattle.compose_core.specs.Spots.{IsSpot};
ghost use Rattle.walker_core.specs.Folds.{IsFoldOn, Joins};
ghost use Rattle.walker_core.specs.Lower.{AreSources, FoldsSources, IsEnd, IsNamed, KnowsSources, LaysUpTo, ShowsEither, ShowsSources};
ghost use Rattle.walker_core.specs.Rows.{AreComposed};

use crate::gathered::Source;
use crate::inputs::Inputs;
use crate::overlay::overlaid;
use crate::row::{Below, lay_sources};
use crate::spans::lacking;
use compose_core::{Given, Pile, Spot};
use geom_core::{NoMemory, Rect};
use std::alloc::Global;

/// From so many lower children on their fold is kept: of fewer it costs as much to lay it.
const WORTH: usize = 4;

/// The lower children of a group on a part of a tile, laid one on another: those below the first that is the
/// painted layer or a group that the walk composes. While only that layer is painted they stay as they are.
#[derive(Drop)]
pub struct Fold {
    pub group: u16,
    /// The painted layer.
    pub layer: u16,
    pub spot: Spot,
    pub given: Given,
}

impl Fold {
    /// The same once more. A tile is shared, and no pixel is copied.
    pub fn share(&self) -> Result<Fold, NoMemory>
        ensures { IfOk result (λ f. f ≡ self.now) }
    {
        Ok(Fold {
            group: self.group,
            layer: self.layer,
            spot: self.spot,
            given: self.given.share()?,
        })
    }

    /// This fold and another of the same children on the same tile as one, which has what either has, or the
    /// larger of both where their parts together are no rectangle.
    pub fn joined(&self, alloc: Global, more: &Fold) -> Result<Fold, NoMemory>
        requires own { IsSpot self.now.spot }
        requires more { IsSpot more.now.spot }
        requires tile { self.now.spot.key ≡ more.now.spot.key }
        ensures { IfOk result (Joins self.now more.now) }
    {
        let (old, new) = (self.spot.part, more.spot.part);
        let all = old.bound(&new);
        if !old.lies_in(&new) && lacking(&all, &old).lies_in(&new) {
            let given = overlaid(alloc, self.given.share()?, &more.given, &more.spot)?;
            return Ok(self.with(all, given));
        }
        if old.points() < new.points() {
            return Ok(self.with(new, more.given.share()?));
        }
        self.share()
    }

    /// A fold of the same children on another part of the tile.
    fn with(&self, part: Rect, given: Given) -> Fold
        ensures group { result.group ≡ self.now.group }
        ensures layer { result.layer ≡ self.now.layer }
        ensures tile { result.spot.key ≡ self.now.spot.key }
        ensures part { result.spot.part ≡ part }
        ensures given { result.given ≡ given }
    {
        Fold {
            group: self.group,
            layer: self.layer,
            spot: Spot {
                key: self.spot.key,
                part,
            },
            given,
        }
    }
}

/// Where the lower children of a group end in the list of children: those of the group before that place are
/// neither the painted layer nor on the path.
pub(crate) fn lower_end(sources: &[Source], group: u16, layer: u16, path: &[u16]) -> usize
    ensures { IsEnd sources.now group (layer ∷ path.now) result }
{
    for i in 0..sources.len() {
        let source = &sources[i];
        if source.group == group && moves(source.id, layer, path) {
            return i;
        }
    }
    sources.len()
}

/// Whether it is the painted layer or on the path.
fn moves(id: u16, layer: u16, path: &[u16]) -> bool
    ensures { result ≡ on id (layer ∷ path.now) }
{
    id == layer || path.contains(&id)
}

/// Where the children end that were laid on a pile, in the list of children, and what is new of their fold.
#[derive(Drop)]
pub(crate) struct Laid {
    pub end: usize,
    pub fold: Option<Fold>,
}

/// Lays the lower children of the next group of a walk on the empty pile, as one picture where their fold is known
/// or to be kept. Where nothing of it is to be kept, no child is laid.
pub(crate) fn lay_lower(
    alloc: Global,
    inputs: &Inputs,
    sources: &[Source],
    below: &Below<'_>,
    spot: &Spot,
    pile: &mut Pile,
) -> Result<Laid, NoMemory>
    requires sources { AreSources inputs.now sources.now }
    requires spot { IsSpot spot.now }
    requires below { AreComposed inputs.now spot.now.key below.now }
    requires empty { (p : Point) → pile_at pile.old p ≡ clear }
    requires known { IsPile pile.old }
    ensures known { OnOk result (IsPile pile.new) }
    ensures within { IfOk result (λ l. l.end ≤ length sources.now) }
    ensures laid { IfOk result (λ l.
        LaysUpTo inputs.now sources.now spot.now below.now l.end pile.new) }
    ensures fold { IfOk result (λ l. IfSome l.fold (IsFoldOn inputs.now spot.now.key)) }
{
    let Some(footing) = inputs.footing() else {
        return Ok(Laid { end: 0, fold: None });
    };
    let Some(part) = spot.part.clip(&inputs.patch().rect) else {
        return Ok(Laid { end: 0, fold: None });
    };
    let group = inputs.path()[below.given.len()];
    let end = lower_end(sources, group, footing.layer, inputs.path());
    let lower = Lower {
        group,
        layer: footing.layer,
        sources: &sources[..end],
        known: footing.fold(group, spot.key),
    };
    let inside = Spot {
        key: spot.key,
        part,
    };
    let fold = lay_fold(alloc, &lower, below, &inside, pile)?;
    Ok(Laid { end, fold })
}

/// The lower children of a group, and what is known of their fold on a tile.
#[derive(Clone, Copy)]
struct Lower<'a> {
    group: u16,
    layer: u16,
    sources: &'a [Source],
    known: Option<&'a Fold>,
}

/// Lays lower children on the empty pile: what is known of their fold where that has the whole part, else one after
/// another.
fn lay_fold(
    alloc: Global,
    lower: &Lower<'_>,
    below: &Below<'_>,
    spot: &Spot,
    pile: &mut Pile,
) -> Result<Option<Fold>, NoMemory>
    requires spot { IsSpot spot.now }
    requires paired { length below.now.given.now ≡ length below.now.path.now }
    requires empty { (p : Point) → pile_at pile.old p ≡ clear }
    requires known { IsPile pile.old }
    ensures known { OnOk result (IsPile pile.new) }
    ensures spot { IfOk result (λ o. IfSome o (λ f. f.spot ≡ spot.now)) }
    ensures of { IfOk result (λ o. IfSome o (IsNamed lower.now.group lower.now.layer)) }

    // On a rectangle on which it is right what is known, these are the children.
    ensures laid { (rect : Area) → KnowsSources rect below.now lower.now → OnOk result
        (ShowsSources rect below.now lower.now.group lower.now.sources.now spot.now.part
        (pile_at pile.new)) }
    ensures fold { (rect : Area) → KnowsSources rect below.now lower.now
        → IfOk result (λ o. IfSome o
        (FoldsSources rect below.now lower.now.group lower.now.sources.now)) }
{
    if let Some(fold) = lower.known {
        if spot.part.lies_in(&fold.spot.part) {
            pile.start_from(fold.given.share()?)?;
            return Ok(None);
        }
    }
    lay_anew(alloc, lower, below, spot, pile)
}

/// Lays lower children on the empty pile one after another, and makes one picture of them where they are worth it.
/// That fold comes back.
fn lay_anew(
    alloc: Global,
    lower: &Lower<'_>,
    below: &Below<'_>,
    spot: &Spot,
    pile: &mut Pile,
) -> Result<Option<Fold>, NoMemory>
    requires spot { IsSpot spot.now }
    requires paired { length below.now.given.now ≡ length below.now.path.now }
    requires empty { (p : Point) → pile_at pile.old p ≡ clear }
    requires known { IsPile pile.old }
    ensures known { OnOk result (IsPile pile.new) }
    ensures spot { IfOk result (λ o. IfSome o (λ f. f.spot ≡ spot.now)) }
    ensures of { IfOk result (λ o. IfSome o (IsNamed lower.now.group lower.now.layer)) }
    ensures laid { (rect : Area) → KnowsSources rect below.now lower.now → OnOk result
        (ShowsSources rect below.now lower.now.group lower.now.sources.now spot.now.part
        (pile_at pile.new)) }
    ensures fold { (rect : Area) → KnowsSources rect below.now lower.now
        → IfOk result (λ o. IfSome o
        (FoldsSources rect below.now lower.now.group lower.now.sources.now)) }
{
    lay_sources(lower.sources, lower.group, below, spot.key, pile)?;
    if pile.looks.len() < WORTH {
        return Ok(None);
    }
    let given = picture_on(alloc, lower.known, spot, pile)?;
    pile.start_from(given.share()?)?;
    Ok(Some(Fold {
        group: lower.group,
        layer: lower.layer,
        spot: *spot,
        given,
    }))
}

/// What the children on a pile make together on a part of the tile, of which a fold may be known. Only what that lacks
/// is composed.
fn picture_on(
    alloc: Global,
    known: Option<&Fold>,
    spot: &Spot,
    pile: &Pile,
) -> Result<Given, NoMemory>
    requires pile { IsPile pile.now }
    requires spot { IsSpot spot.now }
    ensures { IfOk result (ShowsEither known.entry pile.now spot.now.part) }
{
    let Some(fold) = known else {
        return pile.composed(alloc, &spot.in_tile());
    };
    let rest = Spot {
        key: spot.key,
        part: lacking(&spot.part, &fold.spot.part),
    };
    let fresh = pile.composed(alloc, &rest.in_tile())?;
    overlaid(alloc, fold.given.share()?, &fresh, &rest)
}
