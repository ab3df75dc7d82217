//! Queues worked out by hand.

use crate::fixtures::crosses;
use doc_model::{Command, Outcome};
use entry_queue::{Entry, Queue};
use geom_core::NoMemory;

/// The number of the stroke at the head, or 0, and whether it waits.
fn head(queue: &Queue) -> (u32, bool) {
    match queue.head() {
        Some(Entry::Waiting(stroke)) => (stroke.no(), true),
        Some(Entry::Whole(stroke)) => (stroke.no(), false),
        _ => (0, false),
    }
}

#[test]
fn strokes_in_turns(rt: HostRuntime) -> Result<(), NoMemory> {
    let mut queue = Queue::new(rt.alloc());
    crosses(&queue);
    queue.push(&Command::Stroke {
        no: 1,
        layer: 1,
        exclusive: false,
    })?;
    queue.push(&Command::Stroke {
        no: 2,
        layer: 1,
        exclusive: false,
    })?;
    queue.push(&Command::End { no: 2 })?;
    assert_eq!(rt; head(&queue), (1, true));
    queue.push(&Command::Cancel { no: 1 })?;
    assert_eq!(rt; head(&queue), (1, false));
    queue.pop(Outcome::Cancelled);
    assert_eq!(rt; head(&queue), (2, false));
    queue.pop(Outcome::Done);
    let outcomes = [Outcome::Cancelled, Outcome::Done];
    assert!(rt; queue.outcomes() == outcomes.as_slice());
    Ok(())
}
