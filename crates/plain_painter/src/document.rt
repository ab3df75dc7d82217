//! A document, as its tree and all that was done to its layers.

ghost use Rattle.std.specs.Prelude.{◌≡◌, ℕ, true, is_some, IfOk};
ghost use Rattle.std.specs.List.{list_all};
ghost use Rattle.doc_model.specs.Layers.{plain, at};
ghost use Rattle.doc_model.specs.Jobs.{apply_all};
ghost use Rattle.doc_model.specs.Forest.{none, content, with_content};
ghost use Rattle.doc_model.specs.Changes.{changed};
ghost use Rattle.doc_model.specs.Laws.{IsDocument};
ghost use Rattle.machine_model.specs.Effects.{layer_in};
ghost use Rattle.machine_model.specs.UnderWay.{jobs_only};
ghost use Rattle.desk_steps.specs.Archives.{shape};
ghost use Rattle.plain_painter.specs.Steps.{point_of, is_sound, job_sound, layer_after};
ghost use Rattle.plain_painter.specs.Documents.{with_fresh};

use crate::layer::{Deed, Step, pixel_after, with_front, with_jobs};
use crate::spots::Spot;
use doc_model::{Change, Job, Kind, TreeFault};
use geom_core::NoMemory;
use pixel_core::Pixel;
use std::alloc::Global;
use std::marker::Model;
use tree_core::Tree;

/// A tree, and the steps of its layers, the newest first. Steps of layers that are gone stay.
#[derive(Drop)]
pub(crate) struct Document {
    tree: Tree,
    steps: Vec<Step>,
}

impl Model for Document {
    ghost use Rattle.std.specs.Prelude.{◌≡◌, true};
    ghost use Rattle.std.specs.List.{list_all};
    ghost use Rattle.doc_model.specs.Picture.{Doc};
    ghost use Rattle.doc_model.specs.Codes.{doc_code};
    ghost use Rattle.plain_painter.specs.Steps.{is_sound};
    ghost use Rattle.plain_painter.specs.Documents.{filled};

    ghost Value = { Doc };

    ghost coded = { doc_code };

    ghost view = { λ d. filled d.tree d.steps.items };

    ghost invariant = { λ d. list_all is_sound d.steps.items ≡ true };
}

impl Document {
    /// The root alone.
    pub(crate) fn new(alloc: Global) -> Document
        ensures { result ≡ none }
    {
        Document {
            tree: Tree::new(),
            steps: Vec::new(alloc),
        }
    }

    /// The tree. It tells the limits that every document keeps to.
    pub(crate) fn tree(&self) -> &Tree
        ensures value { result.now ≡ shape self.now }
        ensures known { IsDocument self.now }
    {
        let _count = self.tree.node_count();
        &self.tree
    }

    /// Whether the id is a paint layer.
    pub(crate) fn paints(&self, id: u16) -> bool
        ensures { result ≡ is_some (content id self.now) }
    {
        let _count = self.tree.node_count();
        self.tree.has(id) && !self.tree.is_group(id)
    }

    /// The pixel of a paint layer at a point.
    pub(crate) fn pixel(&self, alloc: Global, id: u16, spot: Spot) -> Result<Pixel, NoMemory>
        requires { is_some (content id self.now) ≡ true }
        ensures { IfOk result (λ p. p ≡ at (layer_in id self.now) (point_of spot)) }
    {
        pixel_after(alloc, &self.steps, id, spot)
    }

    /// The document after a change of the tree, or the first refusal.
    pub(crate) fn changed(
        &self,
        alloc: Global,
        change: &Change,
    ) -> Result<Result<Document, TreeFault>, NoMemory>
        ensures { IfOk result (λ r. r ≡ changed plain change.now self.now) }
    {
        let steps = steps_after(alloc, &self.steps, change)?;
        let mut tree = self.tree.copy();
        match tree.change(change) {
            Ok(()) => Ok(Ok(Document { tree, steps })),
            Err(fault) => Ok(Err(fault)),
        }
    }

    /// The document with more jobs on a paint layer.
    pub(crate) fn painted(
        &self,
        alloc: Global,
        layer: u16,
        jobs: &[(Kind, Job)],
    ) -> Result<Document, NoMemory>
        requires there { is_some (content layer self.now) ≡ true }
        requires sound { list_all job_sound (jobs_only jobs.now) ≡ true }
        ensures { IfOk result (λ d. d ≡ with_content layer (apply_all (jobs_only jobs.now)
            (layer_in layer self.now)) self.now) }
    {
        let steps = with_jobs(alloc, &self.steps, layer, jobs)?;
        Ok(Document {
            tree: self.tree.copy(),
            steps,
        })
    }
}

/// The steps after a change of the tree: a layer that it sets in is fresh.
fn steps_after(alloc: Global, steps: &[Step], change: &Change) -> Result<Vec<Step>, NoMemory>
    requires { list_all is_sound steps.now ≡ true }
    ensures sound { IfOk result (λ v. list_all is_sound v.items ≡ true) }
    ensures value { IfOk result (λ v. (q : ℕ) → layer_after q v.items ≡ with_fresh change.now
        (λ p. layer_after p steps.now) q) }
{
    match *change {
        Change::Layer { id, ground, .. } => {
            let step = Step {
                layer: id,
                deed: Deed::Fresh(ground),
            };
            with_front(alloc, step, steps)
        }
        _ => Ok(Vec::from_slice(alloc, steps)?),
    }
}
