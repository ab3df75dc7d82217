//! Reads a script from standard input, or generates one, and writes what the words ask for of it to
//! standard output.
#![tactic(auto)]

use geom_core::NoMemory;
use io_edge::{NoGate, StdSink, StdSource};
use std::alloc::Global;
use std::process::ExitCode;
use std::{env, io};
use strokes_top::{Status, Words, report, run};

/// The words of the command line, without the program's name. One that isn't text stands as a
/// replacement character, which is no word of the command.
fn words_of(rt: &HostRuntime, alloc: Global) -> Result<Words, NoMemory> {
    let mut words = Words::new(alloc);
    match env::args(rt) {
        Ok(args) => {
            for word in args.skip(1) {
                words.add(word.as_str())?;
            }
        }
        Err(e) if e.kind() == io::ErrorKind::OutOfMemory => return Err(NoMemory),
        Err(_) => words.add("\u{fffd}")?,
    }
    Ok(words)
}

fn main(rt: HostRuntime) -> ExitCode {
    let status = match words_of(&rt, rt.alloc()) {
        Ok(words) => run(
            &rt,
            rt.alloc(),
            &words,
            &mut StdSource::new(rt.reader()),
            &mut StdSink::new(rt.stdout()),
            &mut StdSink::new(rt.stderr()),
            &NoGate,
        ),
        Err(NoMemory) => report(rt.alloc(), &mut StdSink::new(rt.stderr()), Status::NoMemory),
    };
    ExitCode::from(status.code())
}
