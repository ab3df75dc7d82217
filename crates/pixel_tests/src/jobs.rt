//! Jobs painted on their first tile from a shot and in place, and that each job's call can succeed.

ghost use Rattle.std.specs.Prelude.{◌≡◌, ◌↔◌, ◌<◌, true, All, IsTrue};
ghost use Rattle.std.specs.List.{list_any, list_all};
ghost use Rattle.geom_core.specs.Areas.{lies_in};
ghost use Rattle.geom_core.specs.Grid.{same_key, all_keys_of};
ghost use Rattle.doc_model.specs.Jobs.{writes, checks};
ghost use Rattle.doc_model.specs.Lawful.{within_limits};

use crate::fixtures::{ORIGIN, RED, rect, shows};
use doc_model::{Job, Kind};
use geom_core::{NoMemory, Rect, TileKey};
use job_core::{Painted, PointWork, paint_tile, point_rect};
use pixel_core::{Op, Pixel};
use std::alloc::Global;
use std::process::Abort;
use std::slice;
use std::test::Fail;
use tile_core::{Shot, Tile};

const BLUE: [u8; 4] = [0, 0, 255, 255];

/// The pixel where nothing was painted.
const GROUND: [u8; 4] = [1, 2, 3, 77];

pub(crate) fn pixel(bytes: [u8; 4]) -> Pixel {
    let [r, g, b, a] = bytes;
    Pixel::new(r, g, b, a)
}

fn filling(rect: Rect, bytes: [u8; 4], strength: u8) -> Job {
    Job::Fill {
        rect,
        colour: pixel(bytes),
        op: Op::Over,
        strength,
    }
}

/// A dab of radius 1.
fn dab(x: i32, y: i32, soft: bool, bytes: [u8; 4]) -> Job {
    Job::Dab {
        x,
        y,
        r: 1,
        soft,
        colour: pixel(bytes),
        op: Op::Over,
        strength: 255,
    }
}

/// A tile with a red pixel at (1, 1), and the ground elsewhere.
pub(crate) fn red_spot(alloc: Global) -> Result<Tile, NoMemory> {
    let mut pixels = vec![in alloc; pixel(GROUND); 4096]?;
    pixels[65] = pixel(RED);
    Tile::from_pixels(alloc, pixels)
}

/// A shot of the world with that tile.
fn red_shot(rt: &impl Abort, alloc: Global) -> Result<Shot, NoMemory> {
    let mut shot = Shot::new(
        alloc,
        &[rect(rt, -16384, -16384, 32768, 32768)],
        pixel(GROUND),
    )?;
    shot.put(ORIGIN, &red_spot(alloc)?)?;
    Ok(shot)
}

/// Whether the shot covers each of the rectangles.
fn covers_all(shot: &Shot, rects: &[Rect]) -> bool
    ensures { result ≡ list_all (λ a. list_any (lies_in a) shot.now.rects) rects.now }
{
    rects.iter().all(|a| shot.covers(a))
}

/// The first tile that the job writes in.
fn first_tile(rt: &impl Abort, job: &Job) -> TileKey
    requires { checks job.now ≡ true }
    ensures { list_any (same_key result) (all_keys_of (writes job.now)) ≡ true }
{
    let rects = job.writes();
    assert!(rt; rects.len() > 0);
    let rect = rects[0];
    assert!(rt; rect.tile_count() > 0);
    rect.tile_at(0)
}

/// What the job leaves in its first tile.
fn painted<'a>(
    rt: &impl Abort,
    alloc: Global,
    job: &'a Job,
    shot: &'a Shot,
) -> Result<Painted<'a>, NoMemory> {
    assert!(rt; job.check().is_ok());
    assert!(rt; job.is_within_limits());
    assert!(rt; covers_all(shot, &job.reads()));
    let key = first_tile(rt, job);
    assert_eq!(rt; key, ORIGIN);
    paint_tile(alloc, job, shot, key)
}

/// The tile with the red spot once the job's blocks are laid on it.
pub(crate) fn laid_from_a_shot(
    rt: &impl Abort,
    alloc: Global,
    job: &Job,
) -> Result<Tile, NoMemory> {
    let shot = red_shot(rt, alloc)?;
    let work = painted(rt, alloc, job, &shot)?;
    let mut tile = red_spot(alloc)?;
    for i in 0..work.block_count() {
        tile = tile.with_region(alloc, work.block(i))?;
    }
    Ok(tile)
}

/// The job's work in its first tile.
pub(crate) fn work<'a>(rt: &impl Abort, entry: &'a (Kind, Job)) -> PointWork<'a> {
    assert!(rt; entry.1.check().is_ok());
    assert!(rt; point_rect(&entry.1).is_some());
    assert!(rt; entry.1.is_within_limits());
    let key = first_tile(rt, &entry.1);
    assert_eq!(rt; key, ORIGIN);
    PointWork::new(slice::from_ref(entry), ORIGIN)
}

/// The tile with the red spot once the job was laid on it in place.
pub(crate) fn laid_in_place(rt: &impl Abort, alloc: Global, job: Job) -> Result<Tile, NoMemory> {
    let mut tile = red_spot(alloc)?;
    assert!(rt; tile.lay_alone(&work(rt, &(Kind::Seq, job))));
    Ok(tile)
}

#[test]
fn moves(rt: HostRuntime) -> Result<(), Fail> {
    let alloc = rt.alloc();
    for (w, dx, wanted) in [
        (1, 2, [(1, 1, GROUND), (2, 1, GROUND), (3, 1, RED)]),
        (64, 1, [(1, 1, GROUND), (2, 1, RED), (3, 1, GROUND)]),
    ] {
        let rect = rect(&rt, 1, 1, w, 1);
        let job = Job::Move { rect, dx, dy: 0 };
        shows(&rt, &laid_from_a_shot(&rt, alloc, &job)?, wanted);
    }
    Ok(())
}

#[test]
fn fills_and_dabs(rt: HostRuntime) -> Result<(), Fail> {
    let alloc = rt.alloc();
    let faint = [0, 0, 255, 128];
    for (job, wanted) in [
        (
            filling(rect(&rt, 1, 1, 1, 1), BLUE, 255),
            [(1, 1, BLUE), (2, 1, GROUND), (1, 2, GROUND)],
        ),
        (
            filling(rect(&rt, 0, 1, 65, 1), faint, 255),
            [(1, 1, [127, 0, 128, 255]), (1, 0, GROUND), (1, 2, GROUND)],
        ),
        (
            dab(4, 4, false, RED),
            [(3, 3, GROUND), (4, 3, RED), (3, 4, RED)],
        ),
        (
            dab(1, 2, true, BLUE),
            [(1, 2, BLUE), (1, 1, [128, 0, 127, 255]), (0, 1, GROUND)],
        ),
    ] {
        shows(&rt, &laid_from_a_shot(&rt, alloc, &job)?, wanted);
        shows(&rt, &laid_in_place(&rt, alloc, job)?, wanted);
    }
    Ok(())
}

#[test]
fn plain_tiles(rt: HostRuntime) -> Result<(), Fail> {
    let whole = (Kind::Seq, filling(rect(&rt, 0, 0, 64, 65), BLUE, 255));
    let work = work(&rt, &whole);
    assert!(rt; work.plain_on_ground(pixel(GROUND)) == Some(pixel(BLUE)));
    assert!(rt; work.plain_on(&red_spot(rt.alloc())?) == Some(pixel(BLUE)));
    Ok(())
}

/// Whether each of the jobs lies in the world.
fn all_checked(jobs: &[(Kind, Job)]) -> bool
    ensures { IsTrue result ↔ All (λ j. checks j.1 ≡ true) jobs.now }
{
    jobs.iter().all(|entry| entry.1.check().is_ok())
}

/// Whether each of the jobs meets the limits.
fn all_within_limits(jobs: &[(Kind, Job)]) -> bool
    ensures { IsTrue result ↔ All (λ j. within_limits j.1 ≡ true) jobs.now }
{
    jobs.iter().all(|entry| entry.1.is_within_limits())
}

/// The run at the front of the jobs.
fn run<'a>(rt: &impl Abort, jobs: &'a [(Kind, Job)]) -> Option<PointWork<'a>> {
    assert!(rt; all_checked(jobs));
    assert!(rt; all_within_limits(jobs));
    PointWork::run(jobs)
}

/// The first three write within the first tile, the fourth in the next.
#[test]
fn a_run_within_one_tile(rt: HostRuntime) -> Result<(), Fail> {
    let jobs = [
        (Kind::Seq, filling(rect(&rt, 0, 0, 2, 1), BLUE, 255)),
        (
            Kind::Con,
            filling(rect(&rt, 1, 0, 1, 1), [0, 255, 0, 128], 255),
        ),
        (Kind::Seq, dab(5, 5, false, RED)),
        (Kind::Seq, filling(rect(&rt, 64, 0, 1, 1), BLUE, 255)),
    ];
    let front = run(&rt, &jobs).expect(&rt, "a run");
    assert_eq!(rt; front.job_count(), 3);
    let mut tile = red_spot(rt.alloc())?;
    assert!(rt; tile.lay_alone(&front));
    shows(
        &rt,
        &tile,
        [(0, 0, BLUE), (1, 0, [0, 128, 127, 255]), (5, 5, RED)],
    );
    Ok(())
}
