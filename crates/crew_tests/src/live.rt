//! What readers see of a script while a crew paints it, and once it is done.

ghost use Rattle.std.specs.Prelude.{◌≡◌};
ghost use Rattle.live_view.specs.Views.{IsOnCanvas};

use crate::painted::{painted as painted_by_crew, script_of};
use crew_run::Shown;
use demo_gen::script_of as generated_script;
use desk_core::Desk;
use geom_core::TileKey;
use io_edge::NoGate;
use live_run::{run_live, run_live_shown};
use live_view::{LiveOpened, LiveReader, LiveWriter, Naming, open_live};
use pixel_core::Pixel;
use plain_painter::drawn_script;
use script_text::Script;
use std::alloc::Global;
use std::marker::Brand;
use std::process::Abort;
use std::sync::atomic::{AtomicU64, Ordering};
use std::sync::{Arc, Wait};
use std::test::*;
use std::thread;
use std::thread::Threads;
use tile_core::Tile;

/// How many drawn scripts are painted.
const SEEDS: u64 = 10;

/// How many times a thread looks at most.
const LOOKS: u32 = 4_000_000;

/// How many tiles that it sees a thread keeps at most.
const KEPT: usize = 2048;

/// A canvas of six tiles, and a layer.
const SHEET: &[u8] = b"canvas 192 128\nlayer 1 0 0\n";

/// Strokes of one job on it, each with an export, before which all is composed.
const STROKES: [&[u8]; 6] = [
    b"stroke 1 1\nfill 1 seq 0 0 192 128 ff0000ff over 255\nend 1\nexport\n",
    b"stroke 2 1\nfill 2 seq 20 30 150 60 00ff0080 over 255\nend 2\nexport\n",
    b"stroke 3 1\ndab 3 seq 100 60 50 soft 0000ffff over 200\nend 3\nexport\n",
    b"stroke 4 1\nfill 4 seq 60 0 70 128 ffffff40 over 255\nend 4\nexport\n",
    b"undo\nexport\n",
    b"stroke 5 1\nfill 5 seq 0 70 64 30 000000ff over 128\nend 5\nexport\n",
];

/// A half opaque red, which no entry exports.
const HALF_RED: &[u8] =
    b"canvas 1 1\nlayer 1 0 0\nstroke 1 1\nfill 1 seq 0 0 1 1 ff000080 over 255\nend 1\n";

/// What a thread saw: whether the versions never fell, and the last of them.
#[derive(Clone, Copy, Debug, PartialEq, Eq)]
struct Seen {
    rises: bool,
    last: u64,
}

/// A tile that a thread saw.
#[derive(Drop)]
struct Sight {
    key: TileKey,
    tile: Tile,
}

/// What became of a script: what was seen while it was painted, how many updates there were, and how many
/// tiles a new reader sees at the end that aren't the desk's.
#[derive(Clone, Copy, Debug, PartialEq, Eq)]
struct Told {
    seen: Seen,
    count: u64,
    others: Option<u32>,
}

/// A tile of the largest canvas, of which there are 32 rows of 32.
#[tactic(auto, using(std::proofs::lemmas::Bool::Decides::nat_tests))]
fn key_at(place: u32) -> TileKey
    ensures { IsOnCanvas result }
{
    TileKey {
        row: (place / 32 % 32) as i16,
        col: (place % 32) as i16,
    }
}

/// Looks at tile after tile until the painting is over, and keeps some of those that it sees.
fn look_on<K: Naming>(
    alloc: Global,
    reader: LiveReader<K>,
    over: &AtomicU64,
) -> (Seen, Vec<Sight>) {
    let mut reader = reader;
    let mut sights = Vec::new(alloc);
    let mut seen = Seen {
        rises: true,
        last: 0,
    };
    for place in 0..LOOKS {
        if over.load(Ordering::SeqCst) == 1 {
            break;
        }
        let key = key_at(place);
        if let Ok(shown) = reader.look(key) {
            seen.rises = seen.rises && seen.last <= shown.version;
            seen.last = shown.version;
            keep(&mut sights, key, shown.tile);
        }
    }
    (seen, sights)
}

/// Keeps a tile that was seen, if there is one, and room.
fn keep(sights: &mut Vec<Sight>, key: TileKey, tile: Option<Tile>) {
    if let Some(tile) = tile {
        if sights.len() < KEPT {
            let _ = sights.push(Sight { key, tile });
        }
    }
}

/// The desk and the writer of a script that was painted by so many workers, if it could be.
fn painted<K: Naming + Send + Sync, R: Threads + Wait + Sync>(
    rt: &R,
    alloc: Global,
    script: &Script,
    workers: u8,
    live: LiveWriter<K>,
) -> Option<(Desk, LiveWriter<K>)> {
    if workers > 16 || script.len() > 1_000_000 {
        live.close(rt);
        return None;
    }
    match run_live(rt, alloc, script, workers, &NoGate, live) {
        Ok(done) => Some(done),
        Err(_) => None,
    }
}

/// Whether both tiles are there with the same pixels. Where the desk has none, all of the other is clear.
fn is_same(seen: Option<&Tile>, own: Option<&Tile>) -> bool {
    match (seen, own) {
        (Some(seen), Some(own)) => seen.pixels() == own.pixels(),
        (Some(seen), None) => seen.is_plain(Pixel::CLEAR),
        (None, own) => own.is_none(),
    }
}

/// How many tiles a new reader sees that aren't the desk's, or not at the newest version.
fn others<K: Naming>(live: &LiveWriter<K>, desk: &Desk) -> Option<u32> {
    let mut reader = live.reader().ok()?;
    let mut others = 0u32;
    for place in 0..1024u32 {
        let key = key_at(place);
        let shown = reader.look(key).ok()?;
        if shown.version != live.count() || !is_same(shown.tile.as_ref(), desk.root_tile(key)) {
            others = others.saturating_add(1);
        }
    }
    Some(others)
}

/// What became of it, once the painting is over. The writer is closed.
fn what_became<K: Naming, R: Wait>(rt: &R, seen: Seen, desk: &Desk, live: LiveWriter<K>) -> Told {
    let others = others(&live, desk);
    let count = live.count();
    live.close(rt);
    Told {
        seen,
        count,
        others,
    }
}

/// Paints beside a thread that looks on.
fn looked_at<K: Naming + Send + Sync + 'static, R: Threads + Wait + Sync>(
    rt: &R,
    alloc: Global,
    script: &Script,
    workers: u8,
    opened: LiveOpened,
) -> Option<(Told, Vec<Sight>)>
    requires { opened ≡ K.book }
{
    let over = Arc::new(alloc, AtomicU64::new(0)).ok()?;
    let theirs = Arc::try_clone(&over).ok()?;
    let live: LiveWriter<K> = opened.named(alloc, 2).ok()?;
    let Ok(reader) = live.reader() else {
        live.close(rt);
        return None;
    };
    let Ok(child) = thread::spawn(rt, move || look_on(alloc, reader, &theirs)) else {
        live.close(rt);
        return None;
    };
    let done = painted(rt, alloc, script, workers, live);
    over.store(1, Ordering::SeqCst);
    let (seen, sights) = child.join(rt);
    match done {
        Some((desk, live)) => Some((what_became(rt, seen, &desk, live), sights)),
        None => None,
    }
}

/// The drawn script of a number, and behind the last of them the generated one of 1.
fn script_at(alloc: Global, seed: u64) -> Option<Script> {
    if seed < SEEDS {
        drawn_script(alloc, seed).ok()?
    } else {
        generated_script(alloc, 1).ok()
    }
}

#[test]
fn who_looks_on_sees_it_come(rt: HostRuntime) -> Result<(), Fail> {
    for seed in 0..=SEEDS {
        let Some(script) = script_at(rt.alloc(), seed) else {
            return Err("no script".into());
        };
        for workers in [0, 2] {
            let Some((told, _)) = looked_at::<Brand, _>(
                &rt,
                rt.alloc(),
                &script,
                workers,
                open_live(),
            ) else {
                return Err("not painted".into());
            };
            let is_right = told.seen.rises
                && told.seen.last <= told.count
                && told.others == Some(0);
            assert!(rt; is_right, "seed {seed}, {workers} workers: {told:?}");
        }
    }
    Ok(())
}

/// The script of the first of the strokes.
fn first_strokes(alloc: Global, count: usize) -> Result<Script, Fail> {
    let mut text = Vec::new(alloc);
    text.extend_from_slice(SHEET)?;
    for stroke in STROKES.iter().take(count) {
        text.extend_from_slice(stroke)?;
    }
    script_of(alloc, &text)
}

/// The desks on which the first strokes were painted, for each number of them.
fn prefixes<R: Threads + Wait + Sync>(rt: &R, alloc: Global) -> Result<Vec<Desk>, Fail> {
    let mut desks = Vec::new(alloc);
    for count in 0..=STROKES.len() {
        let script = first_strokes(alloc, count)?;
        desks.push(painted_by_crew(rt, alloc, &script, 0, &NoGate)?)?;
    }
    Ok(desks)
}

/// Whether the tile is that of one of the desks.
fn is_of_one(sight: &Sight, desks: &[Desk]) -> bool {
    desks.iter().any(|desk| is_same(Some(&sight.tile), desk.root_tile(sight.key)))
}

#[test]
fn what_is_seen_was_painted(rt: HostRuntime) -> Result<(), Fail> {
    let desks = prefixes(&rt, rt.alloc())?;
    let script = first_strokes(rt.alloc(), STROKES.len())?;
    for workers in [0, 1, 4] {
        let Some((told, sights)) = looked_at::<Brand, _>(
            &rt,
            rt.alloc(),
            &script,
            workers,
            open_live(),
        ) else {
            return Err("not painted".into());
        };
        assert!(rt; told.others == Some(0), "{workers} workers: {told:?}");
        for sight in &sights {
            assert!(rt;
                is_of_one(sight, &desks),
                "{workers} workers: {:?}",
                sight.key
            );
        }
    }
    Ok(())
}

/// The colours of the one point that new readers see at the end.
fn point_of(shown: &Shown) -> Option<[u8; 3]> {
    match shown.film.frames() {
        [frame] if frame.width() == 1 && frame.height() == 1 => Some(frame.at(0, 0)),
        _ => None,
    }
}

#[test]
fn the_last_picture(rt: HostRuntime) -> Result<(), Fail> {
    let script = script_of(rt.alloc(), HALF_RED)?;
    if script.len() > 100 {
        return Err("too many".into());
    }
    let shown = run_live_shown(&rt, rt.alloc(), &script, 2, &NoGate)?;
    assert_eq!(rt; point_of(&shown), Some([255, 127, 127]));
    Ok(())
}
