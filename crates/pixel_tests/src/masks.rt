//! Masks and chords of round dabs, worked out by hand.

use brush_mask::{Chord, chord_in_row, mask, mask_row};

#[test]
fn masks(rt: HostRuntime) {
    for (r, soft, dx, dy, want) in [
        (1u8, true, 0i16, 0i16, 255),
        (1, true, 1, 0, 127),
        (1, true, -1, 0, 127),
        (1, true, 0, 1, 127),
        (1, true, 0, -1, 127),
        (1, true, 1, 1, 0),
        (1, true, -1, 1, 0),
        (1, false, 1, 0, 255),
        (1, false, 1, -1, 0),
        (0, true, 0, 0, 255),
        (0, true, 1, 0, 0),
        (2, true, 1, 1, 153),
        (128, true, 0, -128, 0),
        (128, false, 128, 0, 255),
    ] {
        assert!(rt; r <= 128 && dx.unsigned_abs() <= 128 && dy.unsigned_abs() <= 128);
        assert_eq!(rt; mask(r, soft, dx, dy), want);
    }
}

#[test]
fn chords(rt: HostRuntime) {
    for (dx, dy, len, first, end) in [
        (-2i16, 1i16, 5usize, 1, 4),
        (-2, -2, 5, 2, 3),
        (-2, 3, 5, 0, 0),
        (0, 0, 9, 0, 3),
        (3, 0, 9, 0, 0),
        (-8, 0, 3, 3, 3),
    ] {
        assert!(rt; dx.unsigned_abs() <= 128 && dy.unsigned_abs() <= 128 && len < 10);
        assert_eq!(rt; chord_in_row(2, dx, dy, len), Chord { first, end });
    }
}

#[test]
fn rows(rt: HostRuntime) {
    let mut row = [7; 5];
    mask_row(2, true, -2, 1, &mut row);
    assert_eq!(rt; row, [0, 153, 204, 153, 0]);
    mask_row(2, false, -2, 0, &mut row);
    assert_eq!(rt; row, [255; 5]);
    let mut row = [7; 3];
    mask_row(128, true, 126, 0, &mut row);
    assert_eq!(rt; row, [7, 3, 0]);
}
