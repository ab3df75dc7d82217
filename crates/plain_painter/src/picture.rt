//! The picture of a document, point by point.

ghost use Rattle.std.specs.Prelude.{◌≡◌, ◌≤◌, suc, true, false, is_some, map, IfOk};
ghost use Rattle.doc_model.specs.Canvases.{IsOfLimits};
ghost use Rattle.doc_model.specs.Changes.{takes};
ghost use Rattle.doc_model.specs.Forest.{content, height, upper};
ghost use Rattle.doc_model.specs.Laws.{IsDocument};
ghost use Rattle.doc_model.specs.Picture.{picture, laid, frame};
ghost use Rattle.machine_model.specs.Groups.{nodes_in};
ghost use Rattle.pixel_core.specs.Compose.{on_paper as on_paper_of};
ghost use Rattle.plain_painter.specs.Pictures.{node_pixel};
ghost use Rattle.plain_painter.specs.Steps.{point_of};

use crate::document::Document;
use crate::spots::{Spot, spots_of};
use doc_model::Canvas;
use geom_core::NoMemory;
use pixel_core::{Pixel, compose, on_paper};
use std::alloc::Global;

/// The most levels of nodes that a document has.
const MOST_LEVELS: u8 = 16;

/// The colours of the root's picture on the canvas's paper, in row order.
pub(crate) fn frame_of(
    alloc: Global,
    doc: &Document,
    canvas: Canvas,
) -> Result<Vec<[u8; 3]>, NoMemory>
    requires { IsOfLimits canvas }
    ensures { IfOk result (λ v. v.items ≡ frame doc.now canvas) }
{
    let spots = spots_of(alloc, &canvas.rect())?;
    colours_of(alloc, doc, canvas.paper, &spots)
}

/// The colours of the root's picture on an opaque paper at these points.
fn colours_of(
    alloc: Global,
    doc: &Document,
    paper: Pixel,
    spots: &[Spot],
) -> Result<Vec<[u8; 3]>, NoMemory>
    requires { paper.a ≡ 255 }
    ensures { IfOk result (λ v. v.items ≡ map (λ p. on_paper_of (picture doc.now p) paper)
        (map point_of spots.now)) }
{
    let mut colours = Vec::new(alloc);
    for spot in spots {
        let colour = colour_at(alloc, doc, paper, *spot)?;
        colours.push(colour)?;
    }
    Ok(colours)
}

/// The colour of the root's picture on an opaque paper at a point.
fn colour_at(alloc: Global, doc: &Document, paper: Pixel, spot: Spot) -> Result<[u8; 3], NoMemory>
    requires { paper.a ≡ 255 }
    ensures { IfOk result (λ c. c ≡ on_paper_of (picture doc.now (point_of spot)) paper) }
{
    let pixel = picture_at(alloc, doc, spot)?;
    Ok(on_paper(pixel, paper))
}

/// The root's picture at a point.
fn picture_at(alloc: Global, doc: &Document, spot: Spot) -> Result<Pixel, NoMemory>
    ensures { IfOk result (λ p. p ≡ picture doc.now (point_of spot)) }
{
    let _tree = doc.tree();
    node_at(alloc, doc, 0, MOST_LEVELS, spot)
}

/// What a node has at a point, the root by its id 0. At most `levels` levels of nodes stand in a
/// group.
#[cycle(nodes)]
fn node_at(
    alloc: Global,
    doc: &Document,
    id: u16,
    levels: u8,
    spot: Spot,
) -> Result<Pixel, NoMemory>
    requires limits { IsDocument doc.now }
    requires layer { takes id doc.now ≡ false → is_some (content id doc.now) ≡ true }
    requires low { takes id doc.now ≡ true → height (nodes_in id doc.now) ≤ levels }
    ensures { IfOk result (λ p. p ≡ node_pixel id doc.now (point_of spot)) }
{
    if doc.tree().is_group(id) {
        group_at(alloc, doc, id, levels, spot)
    } else {
        doc.pixel(alloc, id, spot)
    }
}

/// What a group has at a point: its children, laid one on another.
#[cycle(nodes)]
fn group_at(
    alloc: Global,
    doc: &Document,
    group: u16,
    levels: u8,
    spot: Spot,
) -> Result<Pixel, NoMemory>
    requires limits { IsDocument doc.now }
    requires takes { takes group doc.now ≡ true }
    requires low { height (nodes_in group doc.now) ≤ levels }
    ensures { IfOk result (λ p. p ≡ node_pixel group doc.now (point_of spot)) }
{
    let mut pixel = Pixel::CLEAR;
    for place in 0..doc.tree().child_count(group) {
        pixel = with_child(alloc, doc, group, place, levels, spot, pixel)?;
    }
    Ok(pixel)
}

/// A child of a group, laid on what those below it have at a point.
#[cycle(nodes)]
fn with_child(
    alloc: Global,
    doc: &Document,
    group: u16,
    place: u16,
    levels: u8,
    spot: Spot,
    below: Pixel,
) -> Result<Pixel, NoMemory>
    requires limits { IsDocument doc.now }
    requires low { height (nodes_in group doc.now) ≤ levels }
    ensures { IfOk result (λ p. laid (upper place (nodes_in group doc.now)) (point_of spot) below
        ≡ laid (upper (suc place) (nodes_in group doc.now)) (point_of spot) p) }
{
    let tree = doc.tree();
    let Some(id) = tree.child(group, place) else {
        return Ok(below);
    };
    let Some(look) = tree.look(id) else {
        return Ok(below);
    };
    if !look.visible {
        return Ok(below);
    }
    let pixel = node_at(alloc, doc, id, levels - 1, spot)?;
    Ok(compose(look.op, pixel, below, look.opacity))
}
