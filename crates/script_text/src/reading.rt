//! What the lines of a script say, one after another.

ghost use Rattle.std.specs.Prelude.{◌≡◌, ◌<◌, ◌≤◌, length, None, Some, ◌++◌, ◌∷◌, [], IfOk, OnOk, IfSome, IsSome, true};
ghost use Rattle.std.specs.Option.{option_to_list};
ghost use Rattle.script_lines.specs.Fronts.{pointed};
ghost use Rattle.doc_model.specs.Strokes.{entries};
ghost use Rattle.std.specs.List.{list_all};
ghost use Rattle.geom_core.specs.Areas.{lies_in, world};
ghost use Rattle.doc_model.specs.Trails.{centres};
ghost use Rattle.doc_model.specs.Jobs.{squares};
ghost use Rattle.script_forms.specs.Jobs.{path as said_path};
ghost use Rattle.script_forms.specs.Ranges.{is_number, trail_in_range, in_range, is_sound};
ghost use Rattle.script_text.specs.Paths.{path_misfit};
ghost use Rattle.script_forms.specs.Forms.{canvas as said_canvas};
ghost use Rattle.script_forms.specs.Plain.{IsJobLine};
ghost use Rattle.script_text.specs.Reading.{canvas_cause, word_cause, command_cause, cause_of as said_cause, path_cause, cause_by, canvas_in, command_in, start_by, left_open, end_by, misfit};
ghost use Rattle.script_text.specs.Read.{command_by, contents_by};
ghost use Rattle.std.specs.Option.{option_map, option_or};
ghost use Rattle.std.specs.Result.{result_ok};
ghost use Rattle.script_text.specs.Read.{IsRefused, Fits, StartsAre, Answers, Takes, TakesCommand, TakesPath};

use crate::draft::{Draft, add_last};
use crate::script::{ReadRefusal, Script, at};
use brush_path::jobs_of;
use doc_model::{Canvas, Command, Track};
use geom_core::NoMemory;
use script_forms::{Word, canvas, command_of, is, path, plain_job, word_of};
use script_lines::Cause;
use std::alloc::Global;

/// How many tiles all paths of a script may meet, each path by itself.
const MOST_CELLS: usize = 65536;

/// Where a stroke starts.
#[derive(Clone, Copy, Debug, PartialEq, Eq)]
pub(crate) struct Start {
    line: u32,
    no: u32,
}

/// What the lines so far say.
#[derive(Drop)]
pub(crate) struct Reading {
    canvas: Option<Canvas>,
    draft: Draft,
    starts: Vec<Start>,
    cells: u32,
}

/// Where the command starts a stroke.
fn start_of(line: u32, command: &Command) -> Option<Start>
    ensures { result ≡ start_by line (Some command.now) }
{
    match command {
        Command::Stroke { no, .. } => Some(Start { line, no: *no }),
        _ => None,
    }
}

impl Reading {
    /// A canvas or none, and room for so many commands.
    pub(crate) fn new(alloc: Global, canvas: Option<Canvas>, room: usize) -> Result<Self, NoMemory>
        ensures canvas { IfOk result (λ r. r.canvas ≡ canvas) }
        ensures draft { IfOk result (λ r. r.draft ≡ []) }
        ensures starts { IfOk result (λ r. r.starts.items ≡ []) }
        ensures cells { IfOk result (λ r. r.cells ≡ 0) }
    {
        Ok(Reading {
            canvas,
            draft: Draft::new(alloc, room)?,
            starts: Vec::new(alloc),
            cells: 0,
        })
    }

    /// A canvas line, behind its word.
    fn take_canvas(&mut self, number: u32, others: &[&[u8]]) -> Result<(), ReadRefusal>
        requires { Fits self.old.canvas }
        ensures refused { IsRefused result number (canvas_cause self.old.canvas
            (pointed others.now)) }
        ensures canvas { OnOk result (self.new.canvas
            ≡ result_ok (said_canvas (pointed others.now))) }
        ensures draft { OnOk result (self.new.draft ≡ self.old.draft) }
        ensures starts { OnOk result (self.new.starts ≡ self.old.starts) }
        ensures cells { OnOk result (self.new.cells ≡ self.old.cells) }
        ensures first { OnOk result (self.old.canvas ≡ None) }
        ensures fits { OnOk result (Fits self.new.canvas) }
    {
        if self.canvas.is_some() {
            return Err(at(number, Cause::CanvasAgain));
        }
        match canvas(others) {
            Ok(canvas) => self.canvas = Some(canvas),
            Err(cause) => return Err(at(number, cause)),
        }
        Ok(())
    }

    /// What a line says, where it says a command.
    #[inline(always)]
    pub(crate) fn add(&mut self, number: u32, command: Command) -> Result<(), ReadRefusal>
        requires ranges { in_range command ≡ true }
        requires sound { is_sound command ≡ true }
        ensures refused { IsRefused result number (misfit (entries self.old.draft) command) }
        ensures taken { OnOk result (TakesCommand self.old self.new number (Some command)) }
    {
        self.draft.add(number, command)?;
        if let Some(start) = start_of(number, &command) {
            add_last(&mut self.starts, start)?;
        }
        Ok(())
    }

    /// The command of the text's first line, where a canvas was read and the line is plain, and what
    /// stands behind the line.
    #[inline(always)]
    pub(crate) fn plain_job<'a>(&self, text: &'a [u8]) -> Option<(Command, &'a [u8])>
        ensures canvas { IsSome result → IsSome self.now.canvas }
        ensures line { IfSome result (λ r. IsJobLine text.now r.0 r.1.now) }
        ensures ranges { IfSome result (λ r. in_range r.0 ≡ true) }
        ensures sound { IfSome result (λ r. is_sound r.0 ≡ true) }
    {
        if self.canvas.is_none() {
            return None;
        }
        plain_job(text)
    }

    /// A line other than a canvas, behind its word.
    fn take_word(
        &mut self,
        number: u32,
        word: Option<Word>,
        others: &[&[u8]],
    ) -> Result<(), ReadRefusal>
        ensures refused { IsRefused result number (word_cause self.old.canvas self.old.draft word
            (pointed others.now)) }
        ensures taken { OnOk result (TakesCommand self.old self.new number
            (command_by word (pointed others.now))) }
    {
        let Some(word) = word else {
            return Err(at(number, Cause::UnknownWord));
        };
        if self.canvas.is_none() {
            return Err(at(number, Cause::CanvasMissing));
        }
        match command_of(word, others) {
            Ok(command) => self.add(number, command),
            Err(cause) => Err(at(number, cause)),
        }
    }

    /// A path, behind its word.
    fn take_path(&mut self, alloc: Global, number: u32, others: &[&[u8]]) -> Result<(), ReadRefusal>
        ensures refused { IsRefused result number (path_cause self.old.canvas self.old.cells
            self.old.draft (pointed others.now)) }
        ensures taken { OnOk result (TakesPath self.old self.new
            (result_ok (said_path (pointed others.now)))) }
    {
        if self.canvas.is_none() {
            return Err(at(number, Cause::CanvasMissing));
        }
        match path(others) {
            Ok(told) => self.add_path(alloc, number, told.0, &told.1),
            Err(cause) => Err(at(number, cause)),
        }
    }

    /// The jobs of a path.
    fn add_path(
        &mut self,
        alloc: Global,
        number: u32,
        no: u32,
        track: &Track,
    ) -> Result<(), ReadRefusal>
        requires number { is_number no ≡ true }
        requires ranges { trail_in_range track.now ≡ true }
        requires few { length (centres track.now) ≤ 4096 }
        requires inside { list_all (λ a. lies_in a world) (squares track.now) ≡ true }
        ensures refused { IsRefused result number
            (option_map said_cause (path_misfit (entries self.old.draft) self.old.cells no
            track.now)) }
        ensures taken { OnOk result (TakesPath self.old self.new (Some (no, track.now))) }
    {
        let jobs = jobs_of(alloc, track)?;
        if let Some(cause) = self.draft.jobs_cause(no, jobs.len()) {
            return Err(at(number, cause));
        }
        if jobs.len().saturating_add(self.cells as usize) > MOST_CELLS {
            return Err(at(number, Cause::TooManyJobs));
        }
        self.draft.add_jobs(number, no, &jobs)?;
        self.cells += jobs.len() as u32;
        Ok(())
    }

    /// A line that is a command.
    #[tactic(auto, unfolding(crate::specs::Reading::cause_by))]
    pub(crate) fn take(
        &mut self,
        alloc: Global,
        number: u32,
        fields: &[&[u8]],
    ) -> Result<(), ReadRefusal>
        requires { Fits self.old.canvas }
        ensures refused { IsRefused result number (cause_by self.old.canvas self.old.cells
            self.old.draft (pointed fields.now)) }
        ensures taken { OnOk result (Takes self.old self.new number (pointed fields.now)) }
        ensures fits { OnOk result (Fits self.new.canvas) }
    {
        match fields {
            [] => Ok(()),
            [word, others @ ..] => {
                if is(word, b"canvas") {
                    self.take_canvas(number, others)
                } else if is(word, b"path") {
                    self.take_path(alloc, number, others)
                } else {
                    self.take_word(number, word_of(word), others)
                }
            }
        }
    }
}

impl Reading {
    /// The line of the first stroke that is still open.
    fn left_open(&self) -> Option<u32>
        ensures { result ≡ left_open (entries self.now.draft) self.now.starts.items }
    {
        for i in 0..self.starts.len() {
            let start = self.starts[i];
            if self.draft.is_open(start.no) {
                return Some(start.line);
            }
        }
        None
    }

    /// The script, where a canvas was read and all strokes are closed.
    pub(crate) fn finish(self) -> Result<Script, ReadRefusal>
        requires fits { Fits self.canvas }
        requires starts { StartsAre self.starts.items self.draft }
        ensures { Answers result (end_by self.canvas self.draft self.starts.items)
            (contents_by self.canvas self.draft) }
    {
        let left = self.left_open();
        let Reading { canvas, draft, .. } = self;
        let Some(canvas) = canvas else {
            return Err(at(1, Cause::CanvasMissing));
        };
        match left {
            Some(line) => Err(at(line, Cause::StrokeLeft)),
            None => Ok(Script::from_parts(canvas, draft.into_commands()?)),
        }
    }
}
