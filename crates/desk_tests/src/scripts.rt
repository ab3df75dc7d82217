//! Worked scripts through a desk that settles by itself.

ghost use Rattle.std.specs.Prelude.{◌≡◌, ◌≤◌, ◌<◌};

use crate::fixtures::{desk_for, script_of, settle};
use crate::plays::{is_at, look};
use crate::told::is_as_told;
use demo_gen::script_of as generated;
use desk_core::Desk;
use frame_core::Frame;
use geom_core::NoMemory;
use io_edge::MemSink;
use memento_core::Steps;
use pixel_core::on_paper;
use ppm_out::write_frame;
use script_text::Script;
use std::alloc::Global;
use std::marker::Brand;
use std::sync::ledger::{Blank, Ledger};
use std::test::Fail;
use worked_scripts::{DONE, REFUSED, ROWS, Row, WIDE};

/// A desk with so many slots that was fed with all of the script and has settled. None where it hasn't.
pub(crate) fn settled(alloc: Global, script: &Script, slots: u8) -> Result<Option<Desk>, NoMemory>
    requires some { 1 ≤ slots }
    requires few { slots ≤ 17 }
{
    let mut desk = desk_for(alloc, script, slots)?;
    if settle_on::<Brand>(alloc, &mut desk, script, Blank::new(1))? {
        Ok(Some(desk))
    } else {
        Ok(None)
    }
}

/// Feeds all of a script to a desk, and settles it. Whether it has settled.
fn settle_on<L: Ledger>(
    alloc: Global,
    desk: &mut Desk,
    script: &Script,
    blank: Blank,
) -> Result<bool, NoMemory>
    requires name { blank.name ≡ L.name }
    requires parts { blank.parts ≡ L.parts }
    requires some { 0 < blank.parts }
{
    let mut steps = Steps::<L>::new(blank);
    settle(alloc, desk, script, &mut steps)
}

/// The pixmaps of frames, one behind another, as far as they fit into so much room.
fn pixmaps(alloc: Global, frames: &[Frame], room: usize) -> Result<Vec<u8>, NoMemory> {
    let mut row = vec![in alloc; 0; 6144]?;
    let mut out = MemSink::new(vec![in alloc; 0; room]?, 65536, Vec::new(alloc));
    for frame in frames {
        let fits = usize::from(frame.width()) <= 2048;
        if !fits || write_frame(frame, &mut row, &mut out).is_err() {
            break;
        }
    }
    Ok(out.bytes().to_vec(alloc)?)
}

/// The pixmaps of the frames of a script's text, and whether some entry was refused.
fn painted(alloc: Global, text: &[u8]) -> Result<Option<(Vec<u8>, bool)>, NoMemory> {
    let Some(script) = script_of(alloc, text)? else {
        return Ok(None);
    };
    let Some(desk) = settled(alloc, &script, 3)? else {
        return Ok(None);
    };
    let refused = desk.outcomes().iter().any(|outcome| outcome.refused());
    Ok(Some((pixmaps(alloc, desk.frames(), 512)?, refused)))
}

/// Whether these are the pixmaps of a script's text, and whether some entry is refused; also where memory
/// runs out once.
fn paints(alloc: Global, text: &[u8], out: &[u8], refused: bool) -> Result<bool, NoMemory> {
    let painted = match painted(alloc, text) {
        Ok(painted) => painted,
        Err(NoMemory) => painted(alloc, text)?,
    };
    Ok(painted.is_some_and(|(bytes, some)| bytes.as_slice() == out && some == refused))
}

/// With any one allocation failing, the pixmaps are the same.
#[test]
fn a_settled_desk_has_the_pixmaps_of_its_script(rt: HostRuntime) -> Result<(), Fail> {
    for (shows, text, out) in DONE {
        assert!(rt; paints(rt.alloc(), text, out, false)?, "{shows}");
    }
    for (shows, text, out) in REFUSED {
        assert!(rt; paints(rt.alloc(), text, out, true)?, "{shows}");
    }
    Ok(())
}

/// Whether the desk of a row's script, with so many slots, has its outcomes and what it means.
fn has(alloc: Global, row: &Row, slots: u8) -> Result<bool, NoMemory>
    requires some { 1 ≤ slots }
    requires few { slots ≤ 17 }
{
    let Some(script) = script_of(alloc, row.script)? else {
        return Ok(false);
    };
    match settled(alloc, &script, slots)? {
        Some(desk) => { Ok(desk.outcomes() == row.outcomes && is_as_told(alloc, &desk, &script)?) }
        None => Ok(false),
    }
}

#[test]
fn a_settled_desk_has_the_outcomes_of_its_script(rt: HostRuntime) -> Result<(), Fail> {
    for row in &ROWS {
        assert!(rt;
            has(rt.alloc(), row, 1)?,
            "{:?}",
            str::from_utf8(row.script)
        );
    }
    for row in &WIDE {
        assert!(rt;
            has(rt.alloc(), row, 17)?,
            "{:?}",
            str::from_utf8(row.script)
        );
    }
    Ok(())
}

/// The hash FNV-1a of 64 bits.
fn fnv(bytes: &[u8]) -> u64 {
    let mut hash = 0xcbf2_9ce4_8422_2325u64;
    for byte in bytes {
        hash = (hash ^ u64::from(*byte)).wrapping_mul(0x0000_0100_0000_01b3);
    }
    hash
}

/// The hash of the frames of a generated script, and how many outcomes it has.
fn generated_sum(alloc: Global) -> Result<Option<(usize, u64, usize)>, NoMemory> {
    let script = generated(alloc, 1)?;
    match settled(alloc, &script, 5)? {
        Some(desk) => {
            let bytes = pixmaps(alloc, desk.frames(), 3_000_000)?;
            Ok(Some((bytes.len(), fnv(&bytes), desk.outcomes().len())))
        }
        None => Ok(None),
    }
}

/// Two frames of 800 by 600 points with groups, looks, cancels and undos, by the hash that the bytes of
/// another painter have.
#[test]
fn a_generated_script(rt: HostRuntime) -> Result<(), Fail> {
    let sum = generated_sum(rt.alloc())?;
    assert_eq!(rt; sum, Some((2_880_030, 0xab28_a349_0824_ddca, 66)));
    Ok(())
}

/// Two frames of the largest canvas, of which the second is past the tiles that a film has before it saves memory:
/// a layer's own pixel, a layer in a group of half its opacity, and one in a group that is off.
const TWO_LARGE: &[u8] =
    b"canvas 2048 2048\nlayer 1 0 0 00ff0080\ngroup 2 0 1\nlayer 3 2 0\nlook 2 128 over on\ngroup 4 0 2\nlayer 5 4 0 000000ff\nlook 4 255 over off\nstroke 1 3\nfill 1 seq 0 0 2048 2048 ff0000ff over 255\nend 1\nexport\nstroke 2 3\nfill 2 seq 0 0 2048 2048 0000ffff over 255\nend 2\nexport\n";

/// Whether the last frame has what the desk shows, in some points of a row.
fn row_is_shown(desk: &Desk, y: u16) -> bool {
    let canvas = desk.canvas();
    if canvas.paper.bytes()[3] != 255 {
        return false;
    }
    for place in 0..canvas.w / 64 {
        let x = place.wrapping_mul(64);
        let Some((pixel, _)) = look(desk, x, y) else {
            return false;
        };
        if !is_at(desk.frames().last(), x, y, on_paper(pixel, canvas.paper)) {
            return false;
        }
    }
    true
}

/// Whether the frames of a script are so many, and the last has what the desk shows, in some points.
fn shows_last(alloc: Global, text: &[u8], frames: usize) -> Result<bool, NoMemory> {
    let Some(script) = script_of(alloc, text)? else {
        return Ok(false);
    };
    match settled(alloc, &script, 1)? {
        Some(desk) => Ok(
            desk.frame_count() == frames && row_is_shown(&desk, 0) && row_is_shown(&desk, 2047),
        ),
        None => Ok(false),
    }
}

#[test]
fn a_film_that_saves_memory(rt: HostRuntime) -> Result<(), Fail> {
    assert!(rt; shows_last(rt.alloc(), TWO_LARGE, 2)?);
    Ok(())
}
