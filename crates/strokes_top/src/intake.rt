//! Reading a script while it comes in.

ghost use Rattle.std.specs.Prelude.{◌≡◌, ◌+◌, ◌≤◌, ◌++◌, ◌∷◌, [], ℕ, List, length, Err, IfOk, IfSome, IfNone, Contains};
ghost use Rattle.script_text.specs.Read.{Answers};
ghost use Rattle.script_text.specs.Reading.{fault as fault_of, script as script_of};
ghost use Rattle.script_text.specs.declared.script.ScriptFault.{ScriptFault};
ghost use Rattle.script_text.specs.declared.script.ReadRefusal.TheVariants.{Fault};
ghost use Rattle.strokes_top.specs.Intakes.{HasTaken};

use crate::transfer::LIMIT;
use geom_core::NoMemory;
use script_text::{ReadRefusal, Reader, Script};
use std::alloc::Global;

/// What stands before the last line feed, and what stands behind it. None where there is none.
fn cut_at_feed(piece: &[u8]) -> Option<(&[u8], &[u8])>
    ensures cut { IfSome result (λ parts. piece.now ≡ parts.0.now ++ 10 ∷ parts.1.now) }
    ensures last { IfSome result (λ parts. ¬ Contains parts.1.now 10) }
    ensures none { IfNone result (¬ Contains piece.now 10) }
{
    let end = piece.iter().rposition(|b| *b == b'\n')?;
    Some((&piece[..end], &piece[end + 1..]))
}

/// The first bytes of a script: the reader has the whole lines, and the rest is what was read of
/// the line behind them.
#[derive(Drop)]
pub(crate) struct Intake {
    reader: Reader,
    rest: Vec<u8>,
}

impl Intake {
    /// No byte yet.
    pub(crate) fn new(alloc: Global) -> Result<Intake, NoMemory>
        ensures { IfOk result (λ i. HasTaken i []) }
    {
        let reader = Reader::new(alloc, LIMIT)?;
        let rest = Vec::new(alloc);
        Ok(Intake { reader, rest })
    }

    /// Takes the bytes that come next.
    ///
    /// # Errors
    /// `Fault` where a line that ends in them has a fault, which is then the first fault of the
    /// script, however it goes on; else `NoMemory`.
    pub(crate) fn take(self, piece: &[u8]) -> Result<Intake, ReadRefusal>
        requires { (got : List ℕ) × HasTaken self got ×
            (length got + length piece.now ≤ LIMIT) }
        ensures ok { (got : List ℕ) → HasTaken self got →
            IfOk result (λ i. HasTaken i (got ++ piece.now)) }
        ensures fault { (got more : List ℕ) (f : ScriptFault) → HasTaken self got →
            result ≡ Err (Fault f) → fault_of ((got ++ piece.now) ++ more) ≡ Some f }
    {
        let Intake { reader, mut rest } = self;
        let Some((ended, behind)) = cut_at_feed(piece) else {
            rest.extend_from_slice(piece)?;
            return Ok(Intake { reader, rest });
        };
        rest.extend_from_slice(ended)?;
        let reader = reader.feed(&rest)?;
        rest.clear();
        rest.extend_from_slice(behind)?;
        Ok(Intake { reader, rest })
    }

    /// The script that the bytes are, or its first fault.
    pub(crate) fn finish(self) -> Result<Script, ReadRefusal>
        requires { (got : List ℕ) × HasTaken self got × (length got ≤ LIMIT) }
        ensures { (got : List ℕ) → HasTaken self got →
            Answers result (fault_of got) (script_of got) }
    {
        self.reader.feed(&self.rest)?.finish()
    }
}
