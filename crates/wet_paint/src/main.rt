//! Wet paint: workers paint a script, and a screen shows it coming.
//!
//!     wet_paint [TILES] < SCRIPT > PICTURES
//!
//! It reads a script from standard input, and writes pixmaps to standard output, one after another. With a
//! number, a thread of its own looks at the live view while the others paint, and writes what it sees each
//! time that so many further tiles were published. The last picture, and without a number the only one, is
//! that of the document that the script makes.
#![tactic(auto)]

mod paint;
mod screen;

use crate::paint::{WetError, picture_of};
use crate::screen::write_picture;
use script_text::{Script, read};
use std::alloc::Global;
use std::env;
use std::io::Read;
use std::process::ExitCode;
use std::sync::Wait;
use std::thread::Threads;

/// The longest script that is read, in bytes.
const LONGEST: usize = 1_048_576;

/// The script on standard input.
fn script_in<R: Input>(rt: &R, alloc: Global) -> Result<Script, WetError> {
    let mut bytes = Vec::new(alloc);
    if let Err(error) = rt.reader().read_to_end(&mut bytes) {
        return Err(WetError::Read(error));
    }
    if bytes.len() > LONGEST {
        return Err(WetError::NotScript);
    }
    match read(alloc, &bytes) {
        Ok(script) => Ok(script),
        Err(_) => Err(WetError::NotScript),
    }
}

/// Reads the script, paints it and writes the pictures.
fn show<R: Threads + Wait + Print + Input + Sync>(
    rt: &R,
    alloc: Global,
    every: Option<u64>,
) -> Result<(), WetError> {
    let script = script_in(rt, alloc)?;
    let picture = picture_of(rt, alloc, &script, every)?;
    write_picture(rt, alloc, &picture)
}

/// The number in the first word.
fn number_in(rt: &HostRuntime) -> Option<u64> {
    env::args(rt).ok()?.nth(1)?.as_str().parse().ok()
}

fn main(rt: HostRuntime) -> ExitCode {
    match show(&rt, rt.alloc(), number_in(&rt)) {
        Ok(()) => ExitCode::SUCCESS,
        Err(_) => ExitCode::FAILURE,
    }
}
