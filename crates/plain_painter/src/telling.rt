//! A document that is told entry by entry, with whole documents for its history.

ghost use Rattle.std.specs.Prelude.{◌≡◌, [], IfOk, All, true};
ghost use Rattle.doc_model.specs.Lawful.{within_limits};
ghost use Rattle.doc_model.specs.Jobs.{checks};
ghost use Rattle.doc_model.specs.Canvases.{IsOfLimits};
ghost use Rattle.doc_model.specs.Forest.{content};
ghost use Rattle.doc_model.specs.Meaning.{start, laid_stroke, advanced};
ghost use Rattle.doc_model.specs.Strokes as doc;
ghost use Rattle.entry_queue.specs.declared.entry.Entry.TheVariants.{Whole, Other};
ghost use Rattle.entry_queue.specs.Pushed.{queued};
ghost use Rattle.plain_painter.specs.Tellings.{Ends, GoesOn, IsReady, story_of};

use crate::document::Document;
use crate::picture::frame_of;
use doc_model::{Canvas, Change, Command, Job, Kind, Outcome};
use entry_queue::Entry;
use geom_core::NoMemory;
use std::alloc::Global;
use std::collections::VecDeque;
use std::mem;
use stroke_core::ClosedStroke;

/// A document on a canvas, those before and after it from the nearest on, and the frames that were
/// exported so far.
#[derive(Drop)]
pub(crate) struct Telling {
    alloc: Global,
    canvas: Canvas,
    past: VecDeque<Document>,
    document: Document,
    future: VecDeque<Document>,
    frames: Vec<Vec<[u8; 3]>>,
}

impl Telling {
    /// An empty document and no frame.
    pub(crate) fn new(alloc: Global, canvas: Canvas) -> Telling
        ensures canvas { result.canvas ≡ canvas }
        ensures story { story_of result [] ≡ start }
    {
        Telling {
            alloc,
            canvas,
            past: VecDeque::new(alloc),
            document: Document::new(alloc),
            future: VecDeque::new(alloc),
            frames: Vec::new(alloc),
        }
    }

    /// Carries out a closed entry, and tells its outcome.
    pub(crate) fn end(&mut self, entry: &Entry) -> Result<Outcome, NoMemory>
        requires canvas { IsOfLimits self.old.canvas }
        requires ready { IsReady entry.now }
        ensures { (e : doc.Entry) → queued e ≡ entry.now → IfOk result (Ends e self.old self.new) }
    {
        match entry {
            Entry::Whole(stroke) => self.paint(stroke),
            Entry::Other(command) => self.obey(command),
            Entry::Waiting(_) => unreachable!(),
        }
    }

    /// The frames.
    pub(crate) fn into_frames(self) -> Vec<Vec<[u8; 3]>>
        ensures { result ≡ self.frames }
    {
        self.frames
    }

    /// Paints a closed stroke. One whose jobs conflict or that was cancelled leaves nothing.
    fn paint(&mut self, stroke: &ClosedStroke) -> Result<Outcome, NoMemory>
        requires ready { IsReady (Whole stroke.now) }
        ensures { (e : doc.Entry) → queued e ≡ Whole stroke.now
            → IfOk result (Ends e self.old self.new) }
    {
        if let Some((first, second)) = stroke.overlap() {
            return Ok(Outcome::Overlap { first, second });
        }
        if stroke.cancelled() {
            return Ok(Outcome::Cancelled);
        }
        self.lay(stroke.layer(), stroke.jobs())
    }

    /// Lays the jobs of a stroke on its layer, as one change.
    fn lay(&mut self, layer: u16, jobs: &[(Kind, Job)]) -> Result<Outcome, NoMemory>
        requires checked { All (λ job. checks job.1 ≡ true) jobs.now }
        requires limits { All (λ job. within_limits job.1 ≡ true) jobs.now }
        ensures { (s : doc.Stroke) → s.layer ≡ layer → s.jobs ≡ jobs.now
            → IfOk result (GoesOn (λ story. laid_stroke story s (content s.layer story.document))
            self.old self.new) }
    {
        if self.document.paints(layer) {
            let next = self.document.painted(self.alloc, layer, jobs)?;
            return self.advance(next);
        }
        if self.document.tree().has(layer) {
            Ok(Outcome::NotPaint(layer))
        } else {
            Ok(Outcome::NoLayer(layer))
        }
    }

    /// Does what an entry that is no stroke asks.
    fn obey(&mut self, command: &Command) -> Result<Outcome, NoMemory>
        requires canvas { IsOfLimits self.old.canvas }
        requires ready { IsReady (Other command.now) }
        ensures { (e : doc.Entry) → queued e ≡ Other command.now
            → IfOk result (Ends e self.old self.new) }
    {
        match command {
            Command::Change(change) => self.change(change),
            Command::Undo => self.undo(),
            Command::Redo => self.redo(),
            Command::Purge { keep } => Ok(self.purge(*keep)),
            Command::Export => self.export(),
            _ => unreachable!(),
        }
    }

    /// Makes a change of the tree.
    fn change(&mut self, change: &Change) -> Result<Outcome, NoMemory>
        ensures { IfOk result (Ends (doc.Changes change.now) self.old self.new) }
    {
        match self.document.changed(self.alloc, change)? {
            Ok(next) => self.advance(next),
            Err(fault) => Ok(Outcome::Tree(fault)),
        }
    }

    /// The next document becomes the present one, and nothing can be redone.
    fn advance(&mut self, next: Document) -> Result<Outcome, NoMemory>
        ensures { IfOk result (GoesOn (λ story. advanced story next) self.old self.new) }
    {
        let before = mem::replace(&mut self.document, next);
        self.past.push_front(before)?;
        self.future.clear();
        Ok(Outcome::Done)
    }

    /// Undoes the newest change.
    fn undo(&mut self) -> Result<Outcome, NoMemory>
        ensures { IfOk result (Ends doc.Undoes self.old self.new) }
    {
        let Some(before) = self.past.pop_front() else {
            return Ok(Outcome::NothingToUndo);
        };
        let after = mem::replace(&mut self.document, before);
        self.future.push_front(after)?;
        Ok(Outcome::Done)
    }

    /// Redoes the change that was undone last.
    fn redo(&mut self) -> Result<Outcome, NoMemory>
        ensures { IfOk result (Ends doc.Redoes self.old self.new) }
    {
        let Some(after) = self.future.pop_front() else {
            return Ok(Outcome::NothingToRedo);
        };
        let before = mem::replace(&mut self.document, after);
        self.past.push_front(before)?;
        Ok(Outcome::Done)
    }

    /// Forgets all documents of the past but the newest `keep`.
    fn purge(&mut self, keep: u32) -> Outcome
        ensures { Ends (doc.Purges keep) self.old self.new result }
    {
        self.past.truncate(keep as usize);
        Outcome::Done
    }

    /// Adds the document's picture to the frames.
    fn export(&mut self) -> Result<Outcome, NoMemory>
        requires { IsOfLimits self.old.canvas }
        ensures { IfOk result (Ends doc.Exports self.old self.new) }
    {
        let frame = frame_of(self.alloc, &self.document, self.canvas)?;
        self.frames.push(frame)?;
        Ok(Outcome::Done)
    }
}
