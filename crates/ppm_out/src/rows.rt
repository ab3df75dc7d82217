//! Rows of frames, laid by the caller or by several threads.

ghost use Rattle.std.specs.Prelude.{◌≡◌, ◌+◌, ◌-◌, ◌*◌, ◌%◌, ◌≤◌, ◌<◌, ⊤, length};
ghost use Rattle.std.specs.Thread.{IsSync};
ghost use Rattle.frame_core.specs.Frames.{IsScene, rows_colours};
ghost use Rattle.ppm_out.specs.Rows.{scene_of, IsThere, StandsBefore};

use frame_core::{Film, Frame};
use std::thread::{Threads, join_mut};

/// How many rows one thread lays at least: those of one row of tiles.
const LEAST: u16 = 64;

/// From how many bytes on a band is worth a second thread.
const WORTH_TWO: usize = 200_000;

/// From how many tiles on that differ from the picture before a second thread is worth it.
const WORTH_MORE: usize = 32;

/// Rows of a picture that are to be laid in a band.
#[derive(Clone, Copy)]
pub(crate) enum Rows<'a> {
    /// Those of a frame.
    Of(&'a Frame),
    /// Those of the frame at that place of a film. The band has the colours of the frame before, of which only
    /// the tiles that may differ are laid anew.
    After(&'a Film, usize),
}

impl<'a> Rows<'a> {
    /// How many columns the picture has.
    fn width(self) -> u16
        requires there { IsThere self }
        ensures value { result ≡ (scene_of self.entry).width }
        ensures known { IsScene (scene_of self.entry) }
    {
        match self {
            Rows::Of(frame) => frame.width(),
            Rows::After(film, i) => {
                let frames = film.frames();
                frames[i].width()
            }
        }
    }

    /// How many of so many threads are of use: one alone where few tiles are laid.
    pub(crate) fn most(self, threads: u8) -> u8
        requires there { IsThere self }
    {
        match self {
            Rows::After(film, i) if film.fresh(i).count() < WORTH_MORE => 1,
            _ => threads,
        }
    }

    /// Writes the colours of n rows from `top` on in a band of just as many bytes.
    fn lay(self, top: u16, n: u16, band: &mut [u8])
        requires there { IsThere self }
        requires inside { top + n ≤ (scene_of self).height }
        requires whole { length band.old ≡ 3 * ((scene_of self).width * n) }
        requires before { StandsBefore self top n band.old }
        ensures { band.new ≡ rows_colours (scene_of self.entry) top n }
    {
        match self {
            Rows::Of(frame) => frame.rows_into(top, n, band),
            Rows::After(film, i) => film.rows_after(i, top, n, band),
        }
    }
}

/// Who lays rows of a frame.
pub(crate) trait LaysRows {
    /// What has to be known first, as that threads may share their runtime.
    ghost can: { Type 0 };

    /// Writes the colours of n rows from `top` on in a band of just as many bytes.
    fn lay(&self, frame: &Frame, top: u16, n: u16, band: &mut [u8])
        requires can { Self.can }
        requires inside { top + n ≤ frame.now.height }
        requires whole { length band.old ≡ 3 * (frame.now.width * n) }
        ensures { band.new ≡ rows_colours frame.now top n };
}

/// The caller alone.
#[derive(Clone, Copy)]
pub(crate) struct Alone;

impl LaysRows for Alone {
    ghost can = { ⊤ };

    fn lay(&self, frame: &Frame, top: u16, n: u16, band: &mut [u8]) {
        frame.rows_into(top, n, band);
    }
}

/// At most so many threads.
#[derive(Drop)]
pub(crate) struct Threaded<'a, R> {
    pub(crate) rt: &'a R,
    pub(crate) threads: u8,
}

impl<'a, R: Threads + Sync> LaysRows for Threaded<'a, R> {
    ghost can = { IsSync R.row };

    fn lay(&self, frame: &Frame, top: u16, n: u16, band: &mut [u8]) {
        lay_rows(self.rt, self.threads, Rows::Of(frame), top, n, band);
    }
}

/// Writes the colours of n rows from `top` on, by at most so many threads. Each half goes to a half of them.
#[cycle(halves)]
pub(crate) fn lay_rows<R: Threads + Sync>(
    rt: &R,
    threads: u8,
    rows: Rows<'_>,
    top: u16,
    n: u16,
    band: &mut [u8],
)
    requires there { IsThere rows }
    requires inside { top + n ≤ (scene_of rows).height }
    requires whole { length band.old ≡ 3 * ((scene_of rows).width * n) }
    requires before { StandsBefore rows top n band.old }
    ensures { band.new ≡ rows_colours (scene_of rows.entry) top n }
{
    if threads < 2 || n <= LEAST || band.len() < WORTH_TWO {
        rows.lay(top, n, band);
        return;
    }
    let high = half(n);
    let across = 3 * rows.width() as usize;
    let (above, below) = band.split_at_mut(across * high as usize);
    lay_both(rt, threads, rows, top, high, n - high, above, below);
}

/// Writes the colours of rows from `top` on, those of the upper ones by a half of the threads, and those of the
/// rows below them by the others.
#[cycle(halves)]
fn lay_both<R: Threads + Sync>(
    rt: &R,
    threads: u8,
    rows: Rows<'_>,
    top: u16,
    high: u16,
    low: u16,
    above: &mut [u8],
    below: &mut [u8],
)
    requires some { 2 ≤ threads }
    requires there { IsThere rows }
    requires inside { top + (high + low) ≤ (scene_of rows).height }
    requires above { length above.old ≡ 3 * ((scene_of rows).width * high) }
    requires below { length below.old ≡ 3 * ((scene_of rows).width * low) }
    requires before_above { StandsBefore rows top high above.old }
    requires before_below { StandsBefore rows (top + high) low below.old }
    ensures above { above.new ≡ rows_colours (scene_of rows.entry) top high }
    ensures below { below.new ≡ rows_colours (scene_of rows.entry) (top + high) low }
{
    let _known = rows.width();
    let some = threads / 2;
    let others = threads - some;
    let next = top + high;
    join_mut(
        rt,
        &mut ||
            requires { IsSync R.row × IsThere rows × (top + high ≤ (scene_of rows).height)
                × (length above.now ≡ 3 * ((scene_of rows).width * high)) × StandsBefore rows top
                high above.now }
            ensures { above.exit.now ≡ rows_colours (scene_of rows.entry) top high }
        { lay_rows(rt, some, rows, top, high, above) },
        &mut ||
            requires { IsSync R.row × IsThere rows × (next + low ≤ (scene_of rows).height)
                × (length below.now ≡ 3 * ((scene_of rows).width * low)) × StandsBefore rows next
                low below.now }
            ensures { below.exit.now ≡ rows_colours (scene_of rows.entry) next low }
        { lay_rows(rt, others, rows, next, low, below) },
    );
}

/// About half of more rows than one thread lays, in whole rows of tiles.
fn half(n: u16) -> u16
    requires many { LEAST < n }
    ensures some { 0 < result }
    ensures fewer { result < n }
    ensures whole { result % 64 ≡ 0 }
{
    (n / 2).next_multiple_of(LEAST)
}
