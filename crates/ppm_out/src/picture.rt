//! Portable pixmaps of kind P6, as Netpbm's page on PPM has them.

ghost use Rattle.std.specs.Prelude.{◌≡◌, ◌+◌, ◌*◌, ◌<◌, ◌≤◌, ℕ, List, Some, OnOk, OnErr, length, All, slice_get};
ghost use Rattle.std.specs.List.{flat_map};
ghost use Rattle.frame_core.specs.Frames.{Scene, Shows, rows_colours};
ghost use Rattle.std.specs.Io.KnownBytes.{Appends};
ghost use Rattle.io_edge.specs.Told.{AppendsPrefix};
ghost use Rattle.io_edge.specs.Faults.{HasCause};
ghost use Rattle.ppm_out.specs.Pictures.{header, frame_bytes};
ghost use Rattle.ppm_out.specs.Scenes.{scene_bytes};
ghost use Rattle.ppm_out.specs.Rows.{scene_of, IsThere, PictureBefore, ShowsFrameBefore};
ghost use Rattle.frame_core.specs.Scenes.{colours_of};

use crate::rows::{Alone, LaysRows, Rows, Threaded, lay_rows};
use frame_core::{Film, Frame};
use io_edge::{Failed, Sink, write_all, write_pieces};
use itoa::Buffer;
use std::thread::Threads;

/// Writes a frame as a pixmap: a header, and then red, green and blue of each point, the rows from
/// the top and each row from the left. `row` is room for at least three bytes a column, and as many
/// rows as it has room for are written at a time. No memory.
///
/// # Errors
/// `Failed` only where the sink's count of faults rose. The sink then took the first of the bytes.
pub fn write_frame<K: Sink>(frame: &Frame, row: &mut [u8], out: &mut K) -> Result<(), Failed>
    requires room { 3 * frame.now.width ≤ length row.old }
    ensures ok { OnOk result (Appends (K.taken out.old) (K.taken out.new)
        (frame_bytes frame.now.width frame.now.height (colours_of frame.now))) }
    ensures err { OnErr result (AppendsPrefix (K.taken out.old) (K.taken out.new)
        (frame_bytes frame.now.width frame.now.height (colours_of frame.now))) }
    ensures cause { HasCause (K.faults out.old) (K.faults out.new) result }
{
    write_bands(&Alone, frame, row, out)
}

/// The same, where the rows that there is room for are laid by at most so many threads. Room for 64
/// rows a thread is best, since a tile has as many. It takes no memory but that of the threads.
///
/// # Errors
/// As of `write_frame`.
pub fn write_frame_by<R: Threads + Sync, K: Sink>(
    rt: &R,
    threads: u8,
    frame: &Frame,
    room: &mut [u8],
    out: &mut K,
) -> Result<(), Failed>
    requires room { 3 * frame.now.width ≤ length room.old }
    ensures ok { OnOk result (Appends (K.taken out.old) (K.taken out.new)
        (frame_bytes frame.now.width frame.now.height (colours_of frame.now))) }
    ensures err { OnErr result (AppendsPrefix (K.taken out.old) (K.taken out.new)
        (frame_bytes frame.now.width frame.now.height (colours_of frame.now))) }
    ensures cause { HasCause (K.faults out.old) (K.faults out.new) result }
{
    let hands = Threaded { rt, threads };
    write_bands(&hands, frame, room, out)
}

/// Writes a frame as a pixmap, by bands of as many rows as there is room for.
fn write_bands<L: LaysRows, K: Sink>(
    hands: &L,
    frame: &Frame,
    room: &mut [u8],
    out: &mut K,
) -> Result<(), Failed>
    requires can { L.can }
    requires room { 3 * frame.now.width ≤ length room.old }
    ensures ok { OnOk result (Appends (K.taken out.old) (K.taken out.new)
        (frame_bytes frame.now.width frame.now.height (colours_of frame.now))) }
    ensures err { OnErr result (AppendsPrefix (K.taken out.old) (K.taken out.new)
        (frame_bytes frame.now.width frame.now.height (colours_of frame.now))) }
    ensures cause { HasCause (K.faults out.old) (K.faults out.new) result }
{
    let columns = frame.width();
    let rows = frame.height();
    write_header(columns, rows, out)?;
    let across = 3 * columns as usize;
    let most = (room.len() / across).min(rows as usize) as u16;
    let mut top = 0;
    while top < rows {
        let n = (rows - top).min(most);
        let band = &mut room[..across * n as usize];
        write_band(hands, frame, top, n, band, out)?;
        top += n;
    }
    Ok(())
}

/// Lays n rows of a frame from `top` on in a band of just as many bytes, and writes them.
fn write_band<L: LaysRows, K: Sink>(
    hands: &L,
    frame: &Frame,
    top: u16,
    n: u16,
    band: &mut [u8],
    out: &mut K,
) -> Result<(), Failed>
    requires can { L.can }
    requires inside { top + n ≤ frame.now.height }
    requires whole { length band.old ≡ 3 * (frame.now.width * n) }
    ensures ok { OnOk result (Appends (K.taken out.old) (K.taken out.new)
        (rows_colours frame.now top n)) }
    ensures err { OnErr result (AppendsPrefix (K.taken out.old) (K.taken out.new)
        (rows_colours frame.now top n)) }
    ensures cause { HasCause (K.faults out.old) (K.faults out.new) result }
{
    hands.lay(frame, top, n, band);
    write_all(out, band)
}

/// Writes the frames of a film as pixmaps, one after another. `picture` has room for the colours of
/// each frame, which it keeps for the next one: only the tiles that may differ are laid anew. All are
/// laid by at most so many threads. It takes no memory but that of the threads.
///
/// # Errors
/// `Failed` only where the sink's count of faults rose. The sink then took the first of the bytes.
pub fn write_frames_by<R: Threads + Sync, K: Sink>(
    rt: &R,
    threads: u8,
    film: &Film,
    picture: &mut [u8],
    out: &mut K,
) -> Result<(), Failed>
    requires room { All (λ (f : Scene). 3 * (f.width * f.height) ≤ length picture.old) film.now }
    ensures ok { OnOk result (Appends (K.taken out.old) (K.taken out.new)
        (flat_map scene_bytes film.now)) }
    ensures err { OnErr result (AppendsPrefix (K.taken out.old) (K.taken out.new)
        (flat_map scene_bytes film.now)) }
    ensures cause { HasCause (K.faults out.old) (K.faults out.new) result }
{
    let frames = film.frames();
    for i in 0..frames.len() {
        let rows = rows_of(film, i);
        lay_picture(rt, rows.most(threads), &frames[i], rows, picture);
        write_picture(&frames[i], picture, out)?;
    }
    Ok(())
}

/// The rows of the frame at that place of a film, over those of the frame before where it follows it.
fn rows_of(film: &Film, i: usize) -> Rows<'_>
    requires { i < length film.now }
    ensures there { IsThere result }
    ensures of { slice_get film.now i ≡ Some (scene_of result) }
    ensures after { (picture : List ℕ) → ShowsFrameBefore film.now i picture → PictureBefore result
        picture }
{
    if film.follows(i) {
        Rows::After(film, i)
    } else {
        let frames = film.frames();
        Rows::Of(&frames[i])
    }
}

/// Lays all rows of a frame at the front of the picture, as they are told.
fn lay_picture<R: Threads + Sync>(
    rt: &R,
    threads: u8,
    frame: &Frame,
    rows: Rows<'_>,
    picture: &mut [u8],
)
    requires there { IsThere rows }
    requires of { scene_of rows ≡ frame.now }
    requires room { 3 * (frame.now.width * frame.now.height) ≤ length picture.old }
    requires before { PictureBefore rows picture.old }
    ensures shown { Shows frame.now picture.new }
    ensures rest { length picture.new ≡ length picture.old }
{
    let width = frame.width();
    let height = frame.height();
    let places = 3 * (width as usize * height as usize);
    lay_rows(rt, threads, rows, 0, height, &mut picture[..places]);
}

/// Writes the pixmap of a frame whose colours stand in the picture.
fn write_picture<K: Sink>(frame: &Frame, picture: &[u8], out: &mut K) -> Result<(), Failed>
    requires room { 3 * (frame.now.width * frame.now.height) ≤ length picture.now }
    requires shown { Shows frame.now picture.now }
    ensures ok { OnOk result (Appends (K.taken out.old) (K.taken out.new) (scene_bytes frame.now)) }
    ensures err { OnErr result (AppendsPrefix (K.taken out.old) (K.taken out.new)
        (scene_bytes frame.now)) }
    ensures cause { HasCause (K.faults out.old) (K.faults out.new) result }
{
    let columns = frame.width();
    let rows = frame.height();
    write_header(columns, rows, out)?;
    write_all(out, &picture[..3 * (columns as usize * rows as usize)])
}

/// Writes what stands before the colours.
fn write_header<K: Sink>(w: u16, h: u16, out: &mut K) -> Result<(), Failed>
    ensures ok { OnOk result (Appends (K.taken out.old) (K.taken out.new) (header w h)) }
    ensures err { OnErr result (AppendsPrefix (K.taken out.old) (K.taken out.new) (header w h)) }
    ensures cause { HasCause (K.faults out.old) (K.faults out.new) result }
{
    let mut columns = Buffer::new();
    let mut rows = Buffer::new();
    let w = columns.format(w).as_bytes();
    let h = rows.format(h).as_bytes();
    write_pieces(out, &[b"P6\n", w, b" ", h, b"\n255\n"])
}
