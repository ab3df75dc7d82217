//! Scripts told plainly: each frame from the definition of a picture, point by point.

ghost use Rattle.std.specs.Prelude.{◌≡◌, [], true, IfOk};
ghost use Rattle.doc_model.specs.Feeding.{lawful};
ghost use Rattle.entry_queue.specs.Pushed.{StandsFor};
ghost use Rattle.plain_painter.specs.Tellings.{Tells};

use crate::telling::Telling;
use doc_model::{Command, Outcome};
use entry_queue::Queue;
use geom_core::NoMemory;
use script_text::Script;
use std::alloc::Global;

/// What a script means: the colours of a frame for each export, in row order, and an outcome for
/// each entry.
#[derive(Drop)]
pub struct Told {
    pub frames: Vec<Vec<[u8; 3]>>,
    pub outcomes: Vec<Outcome>,
}

/// Tells what the script means.
///
/// # Errors
/// `NoMemory`.
pub fn plain_frames(alloc: Global, script: &Script) -> Result<Told, NoMemory>
    ensures { IfOk result (λ t. Tells script.now t.frames.items t.outcomes.items) }
{
    let mut queue = fed(alloc, script.commands())?;
    let mut telling = Telling::new(alloc, script.canvas());
    while let Some(entry) = queue.head() {
        let outcome = telling.end(entry)?;
        queue.pop(outcome);
    }
    let outcomes = Vec::from_slice(alloc, queue.outcomes())?;
    Ok(Told {
        frames: telling.into_frames(),
        outcomes,
    })
}

/// The queue of all the commands' entries.
fn fed(alloc: Global, commands: &[Command]) -> Result<Queue, NoMemory>
    requires { lawful commands.now ≡ true }
    ensures stands { IfOk result (StandsFor commands.now) }
    ensures outcomes { IfOk result (λ q. q.outcomes ≡ []) }
{
    let mut queue = Queue::new(alloc);
    for command in commands {
        queue.push(command)?;
    }
    Ok(queue)
}
