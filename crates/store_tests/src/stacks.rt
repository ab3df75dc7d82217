//! Undo stacks.

use geom_core::NoMemory;
use history_core::UndoStack;
use std::test::Fail;

/// What is asked of a stack.
#[derive(Clone, Copy)]
enum Call {
    Commit(u8),
    Undo,
    Redo,
    Purge(usize),
}

/// Does what is asked, and tells the entry that is lent.
fn does(stack: &mut UndoStack<u8>, call: Call) -> Result<Option<u8>, NoMemory> {
    match call {
        Call::Commit(entry) => {
            stack.reserve(1)?;
            stack.commit(entry);
            Ok(None)
        }
        Call::Undo => Ok(stack.undo().copied()),
        Call::Redo => Ok(stack.redo().copied()),
        Call::Purge(keep) => {
            stack.purge(keep);
            Ok(None)
        }
    }
}

#[test]
fn entries_back_and_forth(rt: HostRuntime) -> Result<(), Fail> {
    let mut stack = UndoStack::new(rt.alloc());
    for (call, lent) in [
        (Call::Undo, None),
        (Call::Commit(5), None),
        (Call::Undo, Some(5)),
        (Call::Undo, None),
        (Call::Redo, Some(5)),
        (Call::Redo, None),
        (Call::Commit(6), None),
        (Call::Commit(7), None),
        (Call::Undo, Some(7)),
        (Call::Purge(1), None),
        (Call::Undo, Some(6)),
        (Call::Undo, None),
        (Call::Redo, Some(6)),
        (Call::Redo, Some(7)),
        (Call::Undo, Some(7)),
        (Call::Commit(8), None),
        (Call::Redo, None),
    ] {
        assert_eq!(rt; does(&mut stack, call)?, lent);
    }
    Ok(())
}
