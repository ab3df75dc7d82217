//! Feeding a desk by lines and by values.

ghost use Rattle.std.specs.Prelude.{◌≡◌, ◌≤◌, ◌-◌, ◌&&◌, true, false, None, All, OnOk, OnErr, [], ◌∷◌, length};
ghost use Rattle.std.specs.List.{list_all};
ghost use Rattle.geom_core.specs.Areas.{lies_in, world};
ghost use Rattle.doc_model.specs.Jobs.{checks, squares};
ghost use Rattle.doc_model.specs.Lawful.{within_limits};
ghost use Rattle.doc_model.specs.Strokes.{entries};
ghost use Rattle.doc_model.specs.Trails.{centres};
ghost use Rattle.brush_path.specs.Cells.{jobs as path_jobs};
ghost use Rattle.command_log.specs.Misfits.{jobs_misfit, misfit_of};
ghost use Rattle.script_forms.specs.Ranges.{is_sound};
ghost use Rattle.script_text.specs.Paths.{adding};
ghost use Rattle.host_lines.specs.declared.answer.Answer.TheVariants as answers;
ghost use Rattle.host_lines.specs.Lines.{IsGood, has_more as more_in};
ghost use Rattle.host_lines.specs.Values.{IsOfLimits};
ghost use Rattle.host_desk.specs.Feeding.{Fed, FedBeside, FedLine, FedOne, FedTold, FedValue, Feeds, FeedsFront, Leaves, answer_by};

use crate::host::Host;
use brush_path::jobs_of;
use desk_core::Desk;
use doc_model::{Command, Job, Kind, Track};
use geom_core::NoMemory;
use host_lines::{Answer, Line, cause_of, has_more, line_of};
use script_lines::Cause;
use std::alloc::Global;

/// How many commands a desk takes at most.
pub(crate) const MOST_COMMANDS: usize = 4_294_967_294;

impl Host {
    /// Feeds what a line of a script says, behind those that were fed: any command but a canvas. The line feed
    /// behind it may be there or not.
    ///
    /// It answers `Done`, also where the line says nothing; `SecondLine`; `Fault` with the line's first cause;
    /// `Full`; `NoMemory`. But for `Done`, and for a path of which the first jobs were fed as memory ended, nothing
    /// is fed.
    pub fn line(&mut self, text: &[u8]) -> Answer
        ensures more { more_in text.now ≡ true
            → (result ≡ answers.SecondLine) × (self.new ≡ self.old) }
        ensures fed { more_in text.now ≡ false → FedLine self.old text.now result self.new }
    {
        if has_more(text) {
            return Answer::SecondLine;
        }
        feed_line(self.alloc, &mut self.desk, text)
    }

    /// Feeds a command.
    ///
    /// It answers `Done`; `Fault` with what a line of it would have; `Full`; `NoMemory`. But for `Done` nothing
    /// is fed.
    pub fn feed(&mut self, command: &Command) -> Answer
        requires { IsOfLimits command.now }
        ensures { FedValue self.old command.now result self.new }
    {
        if leaves_world(command) {
            return Answer::Fault(Cause::OutOfWorld);
        }
        feed_one(&mut self.desk, command)
    }
}

/// Feeds what the first line of a text says.
fn feed_line(alloc: Global, desk: &mut Desk, text: &[u8]) -> Answer
    ensures { FedLine desk.old text.now result desk.new }
{
    match line_of(alloc, text) {
        Ok(line) => feed_told(alloc, desk, &line),
        Err(_) => Answer::NoMemory,
    }
}

/// Feeds what a line says.
pub(crate) fn feed_told(alloc: Global, desk: &mut Desk, line: &Line) -> Answer
    requires { IsGood line.now }
    ensures { FedTold desk.old line.now result desk.new }
{
    match line {
        Line::Blank => Answer::Done,
        Line::One(command) => feed_one(desk, command),
        Line::Path(no, track) => feed_path(alloc, desk, *no, track),
        Line::Wrong(cause) => Answer::Fault(*cause),
    }
}

/// Feeds a command whose job, if it has one, meets the limits and lies in the world.
fn feed_one(desk: &mut Desk, command: &Command) -> Answer
    requires { is_sound command.now ≡ true }
    ensures { FedOne desk.old command.now result desk.new }
{
    match desk.misfit(command) {
        Some(misfit) => Answer::Fault(cause_of(misfit)),
        None => feed_fit(desk, command),
    }
}

/// The same of a command that fits those that were fed.
#[tactic(auto, using(script_text::proofs::Legal::follows, crate::proofs::FedLines::one_full))]
fn feed_fit(desk: &mut Desk, command: &Command) -> Answer
    requires sound { is_sound command.now ≡ true }
    requires fits { misfit_of (entries desk.old.fed) command.now ≡ None }
    ensures { Fed desk.old None (command.now ∷ []) result desk.new }
{
    if desk.fed_count() >= MOST_COMMANDS {
        return Answer::Full;
    }
    let done = desk.feed(command);
    answer_to(&done)
}

/// The answer to feeding that may want memory.
fn answer_to(done: &Result<(), NoMemory>) -> Answer
    ensures { result ≡ answer_by done.now }
{
    match done {
        Ok(()) => Answer::Done,
        Err(_) => Answer::NoMemory,
    }
}

/// Feeds the jobs of a path.
fn feed_path(alloc: Global, desk: &mut Desk, no: u32, track: &Track) -> Answer
    requires few { length (centres track.now) ≤ 4096 }
    requires inside { list_all (λ a. lies_in a world) (squares track.now) ≡ true }
    ensures { FedBeside desk.old no (path_jobs track.now) result desk.new }
{
    match jobs_of(alloc, track) {
        Ok(jobs) => feed_jobs(desk, no, &jobs),
        Err(_) => Answer::NoMemory,
    }
}

/// Feeds jobs of a stroke, each beside the others.
fn feed_jobs(desk: &mut Desk, no: u32, jobs: &[Job]) -> Answer
    requires { All (λ j. (checks j && within_limits j) ≡ true) jobs.now }
    ensures { FedBeside desk.old no jobs.now result desk.new }
{
    match desk.jobs_misfit(no, jobs.len()) {
        Some(misfit) => Answer::Fault(cause_of(misfit)),
        None => feed_fitting(desk, no, jobs),
    }
}

/// The same of jobs that their stroke takes.
fn feed_fitting(desk: &mut Desk, no: u32, jobs: &[Job]) -> Answer
    requires sound { All (λ j. (checks j && within_limits j) ≡ true) jobs.now }
    requires fits { jobs_misfit (entries desk.old.fed) no (length jobs.now) ≡ None }
    ensures { Fed desk.old None (adding no jobs.now) result desk.new }
{
    if jobs.len() > MOST_COMMANDS.saturating_sub(desk.fed_count()) {
        return Answer::Full;
    }
    let done = feed_all(desk, no, jobs);
    answer_to(&done)
}

/// Feeds jobs that their stroke takes, and for which there is room.
///
/// # Errors
/// `NoMemory`; some of them are fed, from the first on, or none, but not all.
fn feed_all(desk: &mut Desk, no: u32, jobs: &[Job]) -> Result<(), NoMemory>
    requires sound { All (λ j. (checks j && within_limits j) ≡ true) jobs.now }
    requires fits { jobs_misfit (entries desk.old.fed) no (length jobs.now) ≡ None }
    requires room { length jobs.now ≤ 4294967294 - length desk.old.fed }
    ensures ok { OnOk result (Feeds desk.old (adding no jobs.now) desk.new) }
    ensures err { OnErr result (FeedsFront desk.old (adding no jobs.now) desk.new) }
{
    for job in jobs {
        let command = Command::Add {
            no,
            kind: Kind::Con,
            job: *job,
        };
        desk.feed(&command)?;
    }
    Ok(())
}

/// Whether the command adds a job that leaves the world.
fn leaves_world(command: &Command) -> bool
    requires { IsOfLimits command.now }
    ensures leaves { result ≡ true → Leaves command.now }
    ensures stays { result ≡ false → is_sound command.now ≡ true }
{
    match command {
        Command::Add { job, .. } => job.check().is_err(),
        _ => false,
    }
}
