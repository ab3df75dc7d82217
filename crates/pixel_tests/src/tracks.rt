//! Tracks against their dabs in turn, and worked values.

ghost use Rattle.std.specs.Prelude.{◌≡◌, ◌≤◌, true};
ghost use Rattle.std.specs.List.{list_all};
ghost use Rattle.geom_core.specs.Areas.{lies_in, world};
ghost use Rattle.doc_model.specs.Jobs.{squares};

use crate::fixtures::ORIGIN;
use crate::jobs::{laid_from_a_shot, laid_in_place, pixel, red_spot, work};
use brush_path::{cells_of, jobs_of};
use doc_model::{Job, Kind, Stamp, Track, track_dab, track_len};
use geom_core::{NoMemory, TileKey};
use pixel_core::Op;
use std::alloc::Global;
use std::process::Abort;
use std::test::Fail;
use tile_core::Tile;

/// The track along these points.
fn track(rt: &impl Abort, points: &[(i16, i16)], gap: u8, stamp: Stamp) -> Track {
    assert!(rt; 2 <= points.len() && points.len() <= 8);
    assert!(rt; 1 <= gap);
    assert!(rt; stamp.r <= 128);
    Track::new(points, gap, stamp)
}

fn stamp(r: u8, soft: bool, op: Op) -> Stamp {
    Stamp {
        r,
        soft,
        colour: pixel([255, 128, 0, 128]),
        op,
        strength: 200,
    }
}

#[test]
fn centres(rt: HostRuntime) {
    let rows = [
        ([(0, 0), (3, 1)], 2, [(0, 0), (2, 0), (3, 1)]),
        ([(0, 0), (-3, -1)], 2, [(0, 0), (-2, -1), (-3, -1)]),
        ([(5, 7), (5, 3)], 3, [(5, 7), (5, 4), (5, 3)]),
    ];
    for (points, gap, centres) in rows {
        let track = track(&rt, &points, gap, stamp(0, false, Op::Over));
        assert_eq!(rt; track_len(&track), 3);
        for (i, centre) in centres.into_iter().enumerate() {
            assert!(rt; track_dab(&track, i as u32) == centre);
        }
    }
    let long = track(
        &rt,
        &[(-16000, 0), (16000, 0)],
        1,
        stamp(0, false, Op::Over),
    );
    assert_eq!(rt; track_len(&long), 32001);
    assert!(rt; track_dab(&long, 32000) == (16000, 0));
}

#[test]
fn tracks_leave_the_world(rt: HostRuntime) {
    let tile = |row, col| TileKey { row, col };
    let rows = [
        ((0, 0), 0, ORIGIN, true),
        ((16383, -16384), 0, ORIGIN, true),
        ((16383, 0), 1, ORIGIN, false),
        ((-32768, 32767), 0, ORIGIN, false),
        ((0, 0), 0, tile(256, 0), false),
        ((0, 0), 0, tile(0, -257), false),
        ((0, 0), 0, tile(-256, 255), true),
    ];
    for (end, r, cell, checks) in rows {
        let track = track(&rt, &[(0, 0), end], 255, stamp(r, false, Op::Over));
        assert_eq!(rt; Job::Track { track, cell }.check().is_ok(), checks);
    }
}

/// Whether all dabs of the track lie in the world.
fn lies_in_world(track: &Track) -> bool
    ensures { result ≡ true → list_all (λ a. lies_in a world) (squares track.now) ≡ true }
{
    let job = Job::Track {
        track: *track,
        cell: ORIGIN,
    };
    job.check().is_ok()
}

/// The last dab of the second path begins in the same tile as those before it, and ends in the next.
#[test]
fn paths_over_tiles(rt: HostRuntime) -> Result<(), Fail> {
    let alloc = rt.alloc();
    let rows: [([(i16, i16); 2], &[(i16, i16)]); 2] = [
        ([(0, 0), (1, 0)], &[(-1, -1), (-1, 0), (0, -1), (0, 0)]),
        ([(60, 10), (63, 10)], &[(0, 0), (0, 1)]),
    ];
    for (points, places) in rows {
        let track = track(&rt, &points, 1, stamp(1, false, Op::Over));
        assert!(rt; track_len(&track) <= 4096 && lies_in_world(&track));
        let (cells, jobs) = (cells_of(alloc, &track)?, jobs_of(alloc, &track)?);
        assert!(rt; cells.len() == places.len() && jobs.len() == places.len());
        for (i, &(row, col)) in places.iter().enumerate() {
            let cell = TileKey { row, col };
            assert!(rt;
                cells.get(i) == Some(&cell) && jobs.get(i) == Some(&Job::Track { track, cell })
            );
        }
    }
    Ok(())
}

/// Lays a dab that begins in the tile, or none.
fn lay_dab(rt: &impl Abort, tile: &mut Tile, x: i32, y: i32, stamp: &Stamp) {
    let reach = i32::from(stamp.r);
    if x >= 64 + reach || y >= 64 + reach {
        return;
    }
    let dab = Job::Dab {
        x,
        y,
        r: stamp.r,
        soft: stamp.soft,
        colour: stamp.colour,
        op: stamp.op,
        strength: stamp.strength,
    };
    assert!(rt; tile.lay_alone(&work(rt, &(Kind::Con, dab))));
}

/// The tile with the red spot once the track's dabs were laid on it, one by one.
fn laid_one_by_one(rt: &impl Abort, alloc: Global, track: &Track) -> Result<Tile, NoMemory> {
    let stamp = track.stamp();
    let mut tile = red_spot(alloc)?;
    for i in 0..track_len(track) {
        let (x, y) = track_dab(track, i);
        lay_dab(rt, &mut tile, x, y, &stamp);
    }
    Ok(tile)
}

fn are_same(one: &Tile, other: &Tile) -> bool {
    (0..64).all(|row| (0..64).all(|col| one.pixel(col, row) == other.pixel(col, row)))
}

#[test]
fn tracks_are_their_dabs(rt: HostRuntime) -> Result<(), Fail> {
    let alloc = rt.alloc();
    let rows: [(&[(i16, i16)], u8, Stamp); 7] = [
        (&[(10, 10), (40, 12), (10, 10)], 1, stamp(3, true, Op::Over)),
        (&[(9, 9), (9, 9)], 255, stamp(9, false, Op::Erase)),
        (&[(20, 20), (300, 40)], 255, stamp(12, true, Op::Multiply)),
        (
            &[(60, 20), (70, 90), (30, 30)],
            2,
            stamp(4, false, Op::Screen),
        ),
        (&[(40, 40), (20, 33)], 1, stamp(0, false, Op::Addition)),
        (
            &[(3, 3), (30, 9), (60, 90), (12, 70)],
            3,
            stamp(3, true, Op::Over),
        ),
        (
            &[(200, 40), (9, 50), (10, 12)],
            1,
            stamp(9, false, Op::Over),
        ),
    ];
    for (points, gap, stamp) in rows {
        let track = track(&rt, points, gap, stamp);
        let job = Job::Track {
            track,
            cell: ORIGIN,
        };
        let single = laid_one_by_one(&rt, alloc, &track)?;
        assert!(rt; are_same(&laid_in_place(&rt, alloc, job)?, &single));
        assert!(rt; are_same(&laid_from_a_shot(&rt, alloc, &job)?, &single));
    }
    Ok(())
}
