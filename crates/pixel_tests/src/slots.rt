//! Slots of workers.

use crate::fixtures::crosses;
use geom_core::Rect;
use slot_core::Slots;
use std::test::Fail;

#[test]
fn walkers_in_order(rt: HostRuntime) -> Result<(), Fail> {
    let mut slots: Slots<u8> = Slots::new(rt.alloc(), 17)?;
    let point = Rect::default();
    let two = point.bound(&Rect::new(1, 0, 1, 1).unwrap_or_default());
    crosses(&slots);
    slots.put(16, 1, Some(point));
    slots.put(0, 2, None);
    slots.put(2, 3, Some(two));
    assert_eq!(rt; slots.running().as_slice(), [two, point].as_slice());
    assert_eq!(rt; slots.free(), Some(1));
    for (place, work) in [(2, Some(3)), (2, None), (16, Some(1)), (17, None)] {
        assert_eq!(rt; slots.clear(place), work);
    }
    Ok(())
}

#[test]
fn one_slot(rt: HostRuntime) -> Result<(), Fail> {
    let mut slots: Slots<u8> = Slots::new(rt.alloc(), 1)?;
    let first = slots.free();
    slots.put(0, 7, None);
    assert!(rt; slots.running().is_empty());
    for (answer, wanted) in [
        (first, Some(0)),
        (slots.free(), None),
        (slots.work(0).copied(), Some(7)),
        (slots.work(1).copied(), None),
        (slots.clear(0), Some(7)),
        (slots.clear(0), None),
    ] {
        assert_eq!(rt; answer, wanted);
    }
    Ok(())
}
