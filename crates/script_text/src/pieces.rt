//! Reading a script, whole or piece by piece.

ghost use Rattle.std.specs.Prelude.{◌≡◌, ◌++◌, ◌<◌, [], length, List, Err, IfOk};
ghost use Rattle.std.proofs.Props.{props};
ghost use Rattle.script_forms.specs.Jobs.{Fields};
ghost use Rattle.script_lines.specs.Lines.{lines};
ghost use Rattle.script_text.specs.Reading.{fault, script};
ghost use Rattle.script_text.specs.Read.{Answers, Fits, StartsAre};
ghost use Rattle.script_text.specs.declared.script.ScriptFault.{ScriptFault};
ghost use Rattle.script_text.specs.declared.script.ReadRefusal.TheVariants.{Fault};

use crate::reading::Reading;
use crate::script::{ReadRefusal, Script};
use geom_core::NoMemory;
use script_lines::{is_command, next_fields};
use std::alloc::Global;

/// How many bytes a line has as a rule, or fewer. Room for as many commands is taken at once; it
/// costs next to nothing until it is written to.
const USUAL_LINE: usize = 32;

/// The first lines of a script, none of which has a fault.
#[derive(Drop)]
pub struct Reader {
    alloc: Global,
    reading: Reading,
    number: u32,
    ghost fits: { Fits reading.canvas } by { Prim.hlevel props },
    ghost starts: { StartsAre reading.starts.items reading.draft },
}

impl Reader {
    ghost use Rattle.script_text.specs.Pieces.{fault_in, script_in, HasRead, HasRoom};

    /// No line, and room for the commands of a script of so many bytes.
    pub fn new(alloc: Global, bytes: usize) -> Result<Reader, NoMemory>
        ensures { IfOk result (λ r. HasRead r []) }
    {
        let reading = Reading::new(alloc, None, bytes / USUAL_LINE)?;
        Ok(Reader {
            alloc,
            reading,
            number: 0,
        })
    }

    /// Reads the lines of a text too, which is whole lines but for the line feed behind the last.
    ///
    /// # Errors
    /// `Fault` where the lines so far have one, which is then the first fault of the script, however
    /// it goes on; else `NoMemory`.
    pub fn feed(self, text: &[u8]) -> Result<Reader, ReadRefusal>
        requires { HasRoom self (lines text.now) }
        ensures ok { (ls : List Fields) → HasRead self ls
            → IfOk result (λ r. HasRead r (ls ++ lines text.now)) }
        ensures fault { (ls more : List Fields) (f : ScriptFault) → HasRead self ls → result
            ≡ Err (Fault f) → fault_in ((ls ++ lines text.now) ++ more) ≡ Some f }
    {
        let Reader {
            alloc,
            mut reading,
            mut number,
        } = self;
        let mut fields = Vec::new(alloc);
        let mut left = Some(text);
        while let Some(rest) = left {
            number += 1;
            if let Some((command, behind)) = reading.plain_job(rest) {
                reading.add(number, command)?;
                left = Some(behind);
                continue;
            }
            let behind = next_fields(rest, &mut fields)?;
            if is_command(&fields) {
                reading.take(alloc, number, &fields)?;
            }
            left = behind;
        }
        Ok(Reader {
            alloc,
            reading,
            number,
        })
    }

    /// The script that the lines are, or what is wrong with their end.
    pub fn finish(self) -> Result<Script, ReadRefusal>
        ensures { (ls : List Fields) → HasRead self ls → Answers result (fault_in ls)
            (script_in ls) }
    {
        self.reading.finish()
    }
}

/// The script that the bytes spell, or the first fault of its lines.
pub fn read(alloc: Global, bytes: &[u8]) -> Result<Script, ReadRefusal>
    requires { length bytes.now < 4294967295 }
    ensures { Answers result (fault bytes.now) (script bytes.now) }
{
    Reader::new(alloc, bytes.len())?.feed(bytes)?.finish()
}
