//! What the words of a command line ask for.

ghost use Rattle.std.specs.Prelude.{◌≡◌, option_map, Bool, ℕ, List, Option, Result, Ok, Err, Some, None, true, false, IfOk, IsErrOf, codes};
ghost use Rattle.clap.specs.Simple.{app_of};
ghost use Rattle.clap.specs.Matches.{found_of};
ghost use Rattle.clap.specs.Walk.{rows_of, rule_of, one_of};
ghost use Rattle.strokes_top.specs.Choice.{command as said_command, number_option as said_option, choice, choice_by, emit_of, demo_of, artists_of, workers_of, flag_of, if_fit, is_fit as said_fit, lets_draw as said_draw, is_of_artists as said_of_artists, is_trace as said_trace, lets_replay as said_replay};
ghost use Rattle.strokes_top.specs.Named.{IsNamed};
ghost use Rattle.strokes_top.specs.declared.asked.Asked.{Asked};

use crate::asked::Asked;
use crate::words::Words;
use clap::builder::ValueParser;
use clap::error::ErrorKind;
use clap::{Arg, ArgAction, ArgMatches, Command};
use std::alloc::{AllocError, Global};
use std::str::FromStr;

/// How many workers paint where the words don't say it.
const WORKERS: u8 = 4;

/// What a run writes.
#[derive(Clone, Copy)]
pub enum Emit {
    /// A pixmap for each export.
    Picture,
    /// A line for each entry.
    Log,
    /// A short summary.
    Sum,
    /// A trace: the script with one order of the steps that paint it.
    Trace,
    /// A pixmap of what a live view shows at the end: the document that the script makes.
    Live,
}

/// What the words ask for.
#[derive(Clone, Copy)]
pub struct Choice {
    /// What is written.
    pub emit: Emit,
    /// The number of the generated script, where it takes the source's place.
    pub demo: Option<u32>,
    /// Whether the source has a trace in the place of a script.
    pub replay: bool,
    /// How many artists draw the script, where artists are to draw it.
    pub artists: Option<u8>,
    /// How many threads paint beside the caller. Of what is written they change the slots of a trace alone.
    pub workers: u8,
}

/// Why there is no choice.
#[derive(Clone, Copy)]
pub enum ChoiceError {
    /// The command doesn't take the words.
    Usage,
    /// Memory ran out.
    NoMemory,
}

/// A text names nothing that can be written.
#[derive(Clone, Copy)]
pub struct UnknownEmit;

impl FromStr for Emit {
    type Err = UnknownEmit;

    ghost from_str_gives = { IsNamed };

    fn from_str(text: &str) -> Result<Emit, UnknownEmit> {
        if text == "picture" {
            Ok(Emit::Picture)
        } else if text == "log" {
            Ok(Emit::Log)
        } else if text == "sum" {
            Ok(Emit::Sum)
        } else if text == "trace" {
            Ok(Emit::Trace)
        } else if text == "live" {
            Ok(Emit::Live)
        } else {
            Err(UnknownEmit)
        }
    }
}

/// The option of a long name, whose value is a number from the least to the most.
fn number_option<'a>(alloc: Global, name: &'a str, least: i64, most: i64) -> Arg<'a>
    ensures rule { rule_of result ≡ said_option name.entry.now least most }
    ensures local { result.global ≡ false }
{
    Arg::new(alloc, name)
        .long(name)
        .value_parser(ValueParser::signed(least, most))
}

/// The command with its options.
fn command<'a>(alloc: Global) -> Result<Command<'a>, AllocError>
    ensures { IfOk result (λ c. app_of c ≡ said_command) }
{
    let workers = number_option(alloc, "workers", 0, 16);
    let emit = Arg::new(alloc, "emit").long("emit");
    let demo = number_option(alloc, "demo", 0, 4_294_967_295);
    let artists = number_option(alloc, "artists", 1, 16);
    let replay = Arg::new(alloc, "replay")
        .long("replay")
        .action(ArgAction::SetTrue);
    Command::new(alloc, "strokes")
        .no_binary_name(true)
        .arg(workers)?
        .arg(emit)?
        .arg(demo)?
        .arg(artists)?
        .arg(replay)
}

/// What is to be written.
fn emit_in(matches: &ArgMatches<'_>) -> Option<Emit>
    ensures { result ≡ emit_of (one_of (codes "emit") (rows_of (found_of matches.now))) }
{
    match matches.try_get_one::<Emit>("emit") {
        Ok(Some(emit)) => Some(emit),
        Ok(None) => Some(Emit::Picture),
        Err(_) => None,
    }
}

/// The number of the generated script, if there is one.
fn demo_in(matches: &ArgMatches<'_>) -> Option<Option<u32>>
    ensures { result ≡ demo_of (one_of (codes "demo") (rows_of (found_of matches.now))) }
{
    match matches.try_get_one::<u32>("demo") {
        Ok(demo) => Some(demo),
        Err(_) => None,
    }
}

/// How many artists are to draw, if artists are.
fn artists_in(matches: &ArgMatches<'_>) -> Option<Option<u8>>
    ensures { result ≡ artists_of (one_of (codes "artists") (rows_of (found_of matches.now))) }
{
    match matches.try_get_one::<u8>("artists") {
        Ok(artists) => Some(artists),
        Err(_) => None,
    }
}

/// How many threads are to paint beside the caller.
fn workers_in(matches: &ArgMatches<'_>) -> Option<u8>
    ensures { result ≡ workers_of (one_of (codes "workers") (rows_of (found_of matches.now))) }
{
    match matches.try_get_one::<u8>("workers") {
        Ok(workers) => Some(workers.unwrap_or(WORKERS)),
        Err(_) => None,
    }
}

/// Whether the source has a trace.
fn replay_in(matches: &ArgMatches<'_>) -> Option<bool>
    ensures { result ≡ flag_of (one_of (codes "replay") (rows_of (found_of matches.now))) }
{
    match matches.try_get_one::<bool>("replay") {
        Ok(replay) => Some(replay.unwrap_or(false)),
        Err(_) => None,
    }
}

/// Whether a trace is written.
fn is_trace(emit: Emit) -> bool
    ensures { result ≡ said_trace emit }
{
    matches!(emit, Emit::Trace)
}

/// Whether it is written of what artists draw too.
fn is_of_artists(emit: Emit) -> bool
    ensures { result ≡ said_of_artists emit }
{
    match emit {
        Emit::Live | Emit::Trace => false,
        Emit::Picture | Emit::Log | Emit::Sum => true,
    }
}

impl Choice {
    /// Whether so many artists may draw.
    fn lets_draw(&self, artists: u8) -> bool
        ensures { result ≡ said_draw self.now artists }
    {
        1 <= artists && artists <= 16 && is_of_artists(self.emit) && !self.replay
    }

    /// Whether a trace may be checked, where one is to be.
    fn lets_replay(&self) -> bool
        ensures { result ≡ said_replay self.now }
    {
        !self.replay || self.demo.is_none() && !is_trace(self.emit)
    }

    /// Whether the values fit together.
    fn is_fit(&self) -> bool
        ensures { result ≡ said_fit self.now }
    {
        let draws = match self.artists {
            Some(artists) => self.lets_draw(artists),
            None => true,
        };
        self.workers <= 16 && draws && self.lets_replay()
    }
}

/// What the values of the options ask for, where they fit together.
fn asked_by(choice: Choice) -> Option<Asked>
    ensures { option_map (λ (a : Asked). a.choice) result ≡ if_fit choice }
{
    if !choice.is_fit() {
        return None;
    }
    Some(Asked { choice })
}

/// What the values of the options ask for, where each can be read and they fit together.
fn asked_in(matches: &ArgMatches<'_>) -> Option<Asked>
    ensures { option_map (λ (a : Asked). a.choice) result ≡
        choice_by (rows_of (found_of matches.now)) }
{
    let emit = emit_in(matches)?;
    let demo = demo_in(matches)?;
    let replay = replay_in(matches)?;
    let artists = artists_in(matches)?;
    let workers = workers_in(matches)?;
    asked_by(Choice {
        emit,
        demo,
        replay,
        artists,
        workers,
    })
}

/// What the words ask for: `--workers N`, 0 to 16, `--emit WHAT`, `--demo NUMBER`, `--artists N`, 1 to 16, and
/// `--replay`, each at most once. Artists draw a script, not a trace, and neither a live view nor a trace is
/// written of what they draw; `--replay` goes with neither `--demo` nor `--emit trace`.
///
/// # Errors
/// `Usage` exactly where the command doesn't take the words, and `NoMemory` where memory ran out.
pub(crate) fn choice_of(alloc: Global, words: &Words) -> Result<Asked, ChoiceError>
    ensures ok { IfOk result (λ a. choice words.now ≡ Some a.choice) }
    ensures usage { IsErrOf result ChoiceError.Usage → choice words.now ≡ None }
{
    let Ok(command) = command(alloc) else {
        return Err(ChoiceError::NoMemory);
    };
    match command.try_get_matches_from(words.texts()) {
        Ok(matches) => asked_in(&matches).ok_or(ChoiceError::Usage),
        Err(error) if error.kind() == ErrorKind::OutOfMemory => Err(ChoiceError::NoMemory),
        Err(_) => Err(ChoiceError::Usage),
    }
}
