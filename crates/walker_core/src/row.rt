//! The pictures of a walk's groups on one tile.

ghost use Rattle.std.specs.Prelude.{All, ◌≡◌, length, IfOk, IfSome, OnOk};
ghost use Rattle.std.specs.Option.{option_copied};
ghost use Rattle.geom_core.specs.Areas.{Area, Point};
ghost use Rattle.geom_core.specs.Grid.{Key};
ghost use Rattle.geom_core.specs.Keys.{IsWorldKey};
ghost use Rattle.compose_core.specs.Spots.{IsSpot};
ghost use Rattle.compose_core.specs.Piles.{IsPile};
ghost use Rattle.walker_core.specs.Composing.{IsRowOf};
ghost use Rattle.walker_core.specs.Folds.{IsFoldOn};
ghost use Rattle.walker_core.specs.Lower.{LaysSources};
ghost use Rattle.walker_core.specs.Readings.{Readings};
ghost use Rattle.walker_core.specs.Rows.{AreComposed, HasNext, HasNextOn, LaysChild, values_of, found, maybe_on};

use crate::folds::{Fold, lay_lower};
use crate::gathered::Source;
use crate::inputs::Inputs;
use crate::known::Kept;
use crate::overlay::{overlaid, shown_on};
use compose_core::{Given, Pile, Spot};
use geom_core::{NoMemory, TileKey};
use std::alloc::Global;

/// The pictures of a walk's groups on one tile, in the order of the walk.
#[derive(Drop)]
pub(crate) struct Row {
    pub key: TileKey,
    pub given: Vec<Given>,
    /// What is new of the folds of the groups' lower children.
    pub folds: Vec<Fold>,
}

/// Composes all groups of a walk on one tile, each after those in it. The pile serves one group
/// after another, and what it held is let go.
pub(crate) fn compose_row(
    alloc: Global,
    inputs: &Inputs,
    key: TileKey,
    pile: &mut Pile,
) -> Result<Row, NoMemory>
    requires { IsWorldKey key }
    ensures key { IfOk result (λ row. row.key ≡ key) }
    ensures of { IfOk result (IsRowOf inputs.now) }
{
    let path = inputs.path();
    let mut given = Vec::with_capacity(alloc, path.len())?;
    let mut folds = Vec::new(alloc);
    for i in 0..path.len() {
        let below = Below {
            path: &path[..i],
            given: &given,
        };
        let made = compose_next(alloc, inputs, &below, key, pile)?;
        given.push(made.given)?;
        push_some(&mut folds, made.fold)?;
    }
    Ok(Row { key, given, folds })
}

/// Adds a fold, if there is one.
fn push_some(folds: &mut Vec<Fold>, fold: Option<Fold>) -> Result<(), NoMemory>
    ensures { (r : Readings) (key : Key) → All (IsFoldOn r key) folds.old.items
        → IfSome fold (IsFoldOn r key) → OnOk result (All (IsFoldOn r key) folds.new.items) }
{
    match fold {
        Some(fold) => {
            folds.push(fold)?;
            Ok(())
        }
        None => Ok(()),
    }
}

/// What was composed of a group on a tile, and what is new of the fold of its lower children.
#[derive(Drop)]
struct Made {
    given: Given,
    fold: Option<Fold>,
}

/// The groups that a walk has composed so far, with what they have on the tile.
#[derive(Clone, Copy)]
pub(crate) struct Below<'a> {
    pub path: &'a [u16],
    pub given: &'a [Given],
}

/// Composes the next group of a walk on a tile, or that part of it which isn't known.
fn compose_next(
    alloc: Global,
    inputs: &Inputs,
    below: &Below<'_>,
    key: TileKey,
    pile: &mut Pile,
) -> Result<Made, NoMemory>
    requires key { IsWorldKey key }
    requires below { AreComposed inputs.now key below.now }
    ensures given { IfOk result (λ m. HasNext inputs.now key below.now m.given) }
    ensures fold { IfOk result (λ m. IfSome m.fold (IsFoldOn inputs.now key)) }
{
    match inputs.kept(below.given.len(), key)? {
        Kept::Nothing => {
            let spot = Spot::new(&inputs.patch().rect, key);
            compose_group(alloc, inputs, below, &spot, pile)
        }
        Kept::Whole(given) => Ok(Made { given, fold: None }),
        Kept::Outside(spot, given) => {
            let fresh = compose_group(alloc, inputs, below, &spot, pile)?;
            Ok(Made {
                given: overlaid(alloc, given, &fresh.given, &spot)?,
                fold: fresh.fold,
            })
        }
    }
}

/// Composes the next group of a walk on a part of a tile.
fn compose_group(
    alloc: Global,
    inputs: &Inputs,
    below: &Below<'_>,
    spot: &Spot,
    pile: &mut Pile,
) -> Result<Made, NoMemory>
    requires spot { IsSpot spot.now }
    requires below { AreComposed inputs.now spot.now.key below.now }
    ensures given { IfOk result (λ m. HasNextOn inputs.now spot.now below.now m.given) }
    ensures fold { IfOk result (λ m. IfSome m.fold (IsFoldOn inputs.now spot.now.key)) }
{
    let group = inputs.path()[below.given.len()];
    pile.clear();
    let sources = inputs.sources();
    let laid = lay_lower(alloc, inputs, sources, below, spot, pile)?;
    lay_sources(&sources[laid.end..], group, below, spot.key, pile)?;
    Ok(Made {
        given: pile.composed(alloc, &spot.in_tile())?,
        fold: laid.fold,
    })
}

/// Lays the visible children of a group that are among these on those below them.
pub(crate) fn lay_sources(
    sources: &[Source],
    group: u16,
    below: &Below<'_>,
    key: TileKey,
    pile: &mut Pile,
) -> Result<(), NoMemory>
    requires known { IsPile pile.old }
    requires paired { length below.now.given.now ≡ length below.now.path.now }
    ensures known { OnOk result (IsPile pile.new) }
    ensures laid { (rect : Area) → OnOk result
        (LaysSources rect key below.now group sources.now pile.old pile.new) }
{
    for source in sources {
        if source.group == group && source.look.visible {
            add_child(source, below, key, pile)?;
        }
    }
    Ok(())
}

/// Lays a visible child on those below it.
fn add_child(
    source: &Source,
    below: &Below<'_>,
    key: TileKey,
    pile: &mut Pile,
) -> Result<(), NoMemory>
    requires known { IsPile pile.old }
    requires paired { length below.now.given.now ≡ length below.now.path.now }
    ensures known { OnOk result (IsPile pile.new) }
    ensures laid { (rect : Area)
        → OnOk result (LaysChild rect key below.now source.now pile.old pile.new) }
{
    let given = match walked(below.path, below.given, source.id) {
        Some(given) => given.share()?,
        None => shown_on(&source.shot, key)?,
    };
    pile.add(source.look, given)
}

/// What the walk has composed for the group last, if it has.
pub(crate) fn walked<'a>(path: &[u16], given: &'a [Given], group: u16) -> Option<&'a Given>
    requires { length given.now ≡ length path.now }
    ensures { (p : Point) → found (values_of path.now given.now p) group
        ≡ maybe_on (option_copied result) p }
{
    for back in 0..given.len() {
        let at = given.len() - 1 - back;
        if path[at] == group {
            return Some(&given[at]);
        }
    }
    None
}
