//! Commands that are the same.

ghost use Rattle.std.specs.Prelude.{◌≡◌, ◌↔◌, IsTrue, Some, slice_get};

use doc_model::{Change, Command};

/// Whether both are the same command.
fn is_same(a: &Command, b: &Command) -> bool
    ensures { IsTrue result ↔ (a.now ≡ b.now) }
{
    match (a, b) {
        (Command::Change(one), Command::Change(other)) => is_same_change(one, other),
        (
            Command::Stroke {
                no,
                layer,
                exclusive,
            },
            Command::Stroke {
                no: other_no,
                layer: other_layer,
                exclusive: other_exclusive,
            },
        ) => no == other_no && layer == other_layer && exclusive == other_exclusive,
        (
            Command::Add { no, kind, job },
            Command::Add {
                no: other_no,
                kind: other_kind,
                job: other_job,
            },
        ) => no == other_no && kind == other_kind && job.same_as(other_job),
        (Command::End { no }, Command::End { no: other }) => no == other,
        (Command::Cancel { no }, Command::Cancel { no: other }) => no == other,
        (Command::Undo, Command::Undo) => true,
        (Command::Redo, Command::Redo) => true,
        (Command::Purge { keep }, Command::Purge { keep: other }) => keep == other,
        (Command::Export, Command::Export) => true,
        _ => false,
    }
}

/// Whether both are the same change.
fn is_same_change(a: &Change, b: &Change) -> bool
    ensures { IsTrue result ↔ (a.now ≡ b.now) }
{
    a == b
}

/// Whether the command stands at that place of the list.
#[inline(always)]
pub(crate) fn stands_at(list: &[Command], i: usize, command: &Command) -> bool
    ensures { IsTrue result ↔ (slice_get list.now i ≡ Some command.now) }
{
    match list.get(i) {
        Some(there) => is_same(there, command),
        None => false,
    }
}
