//! The library's exports: each takes a desk, a piece or a shot out of its handle, makes one call of it, and puts it back.
//! `examples/embed/strokes.h` declares the same.
#![tactic(auto)]

ghost use Rattle.std.specs.Prelude.{◌≡◌, ◌≤◌, ◌<◌, Some, Ok, Err, [], IfOk, IfErr, IfSome, length};
ghost use Rattle.doc_model.specs.declared.command.Command.TheVariants as command;
ghost use Rattle.doc_model.specs.Canvases.{IsOfLimits as IsOfCanvasLimits};
ghost use Rattle.machine_model.specs.State.{new_state};
ghost use Rattle.desk_state.specs.Cached.{ShowsCache};
ghost use Rattle.host_lines.specs.Values.{IsOfLimits, begin_by, dab_by};
ghost use Rattle.host_lines.specs.Structs.{canvas_by};
ghost use Rattle.host_pieces.specs.declared.piece.Piece.TheVariants as pieces;
ghost use Rattle.host_desk.specs.Feeding.{FedPath};
ghost use Rattle.host_desk.specs.Opening.{OpensScript};
ghost use Rattle.host_desk.specs.Paths.{path_by};
ghost use Rattle.host_desk.specs.Settling.{AllDone, Painted};
ghost use Rattle.host_desk.specs.Tiles.{tile_key};
ghost use Rattle.strokes_c.specs.Calls.{Called, CanvasTold, ClosedTold, CountTold, FedLine, FedValue, GavePiece, GivenFrom, HasNoRoom, Opened, OpenedScript, OutcomeAsked, OutcomeTold, PartCalled, RowCalled, SharedInto, SharedOut, ShotTaken, TakenInto, TextCalled, TextGiven, TileCalled, TileGiven, TookPiece, TookShot, WorkedOn, closed_answer};

use doc_model::{Canvas, Command};
use host_desk::{Host, Shot};
use host_handles::{DeskHandle, PieceHandle, ShotHandle};
use host_lines::{
    Answer, StrokesBrush, StrokesCanvas, StrokesCount, StrokesOutcome, StrokesPoint, StrokesRect,
    begin, canvas_of, canvas_within, dab, outcome_of, rect_of,
};
use host_pieces::Piece;
use script_lines::Cause;
use script_text::ReadRefusal;
use std::alloc::Global;

#[unsafe(no_mangle)]
pub extern "C" fn strokes_close(alloc: Global, desk: &mut DeskHandle)
    ensures { desk.new.value ≡ [] }
{
    drop(desk.take_out(alloc));
}

#[unsafe(no_mangle)]
pub extern "C" fn strokes_feed(alloc: Global, desk: &mut DeskHandle, line: &[u8]) -> u32
    ensures { Called (FedLine line.now) desk.old.value result desk.new.value }
{
    let Some(mut host) = desk.take_out(alloc) else {
        return Answer::Shut.code();
    };
    let answer = host.line(line);
    desk.put(host);
    answer.code()
}

/// Feeds a command, or tells that one of its values is out of range.
fn feed(alloc: Global, desk: &mut DeskHandle, command: &Option<Command>) -> u32
    requires { IfSome command.now IsOfLimits }
    ensures { Called (FedValue command.now) desk.old.value result desk.new.value }
{
    let Some(mut host) = desk.take_out(alloc) else {
        return Answer::Shut.code();
    };
    let answer = feed_value(&mut host, command);
    desk.put(host);
    answer.code()
}

/// The same to a desk that is there.
fn feed_value(host: &mut Host, command: &Option<Command>) -> Answer
    requires { IfSome command.now IsOfLimits }
    ensures { FedValue command.now host.old result host.new }
{
    match command {
        Some(command) => host.feed(command),
        None => Answer::Fault(Cause::Range),
    }
}

#[unsafe(no_mangle)]
pub extern "C" fn strokes_begin(
    alloc: Global,
    desk: &mut DeskHandle,
    stroke: u32,
    layer: u16,
    exclusive: bool,
) -> u32
    ensures { Called (FedValue (begin_by stroke layer exclusive))
        desk.old.value result desk.new.value }
{
    feed(alloc, desk, &begin(stroke, layer, exclusive))
}

#[unsafe(no_mangle)]
pub extern "C" fn strokes_dab(
    alloc: Global,
    desk: &mut DeskHandle,
    stroke: u32,
    kind: u32,
    x: i32,
    y: i32,
    brush: &StrokesBrush,
) -> u32
    ensures { Called (FedValue (dab_by stroke kind x y brush.now))
        desk.old.value result desk.new.value }
{
    feed(alloc, desk, &dab(stroke, kind, x, y, brush))
}

#[unsafe(no_mangle)]
pub extern "C" fn strokes_path(
    alloc: Global,
    desk: &mut DeskHandle,
    stroke: u32,
    gap: u8,
    points: &[StrokesPoint],
    brush: &StrokesBrush,
) -> u32
    ensures { Called (FedPath (path_by stroke gap points.now brush.now))
        desk.old.value result desk.new.value }
{
    let Some(mut host) = desk.take_out(alloc) else {
        return Answer::Shut.code();
    };
    let answer = host.path(stroke, gap, points, brush);
    desk.put(host);
    answer.code()
}

#[unsafe(no_mangle)]
pub extern "C" fn strokes_end(alloc: Global, desk: &mut DeskHandle, stroke: u32) -> u32
    ensures { Called (FedValue (Some (command.End stroke))) desk.old.value result desk.new.value }
{
    feed(alloc, desk, &Some(Command::End { no: stroke }))
}

#[unsafe(no_mangle)]
pub extern "C" fn strokes_cancel(alloc: Global, desk: &mut DeskHandle, stroke: u32) -> u32
    ensures { Called (FedValue (Some (command.Cancel stroke)))
        desk.old.value result desk.new.value }
{
    feed(alloc, desk, &Some(Command::Cancel { no: stroke }))
}

#[unsafe(no_mangle)]
pub extern "C" fn strokes_undo(alloc: Global, desk: &mut DeskHandle) -> u32
    ensures { Called (FedValue (Some command.Undo)) desk.old.value result desk.new.value }
{
    feed(alloc, desk, &Some(Command::Undo))
}

#[unsafe(no_mangle)]
pub extern "C" fn strokes_redo(alloc: Global, desk: &mut DeskHandle) -> u32
    ensures { Called (FedValue (Some command.Redo)) desk.old.value result desk.new.value }
{
    feed(alloc, desk, &Some(Command::Redo))
}

#[unsafe(no_mangle)]
pub extern "C" fn strokes_take(alloc: Global, desk: &mut DeskHandle, piece: &mut PieceHandle) -> u32
    ensures { TookPiece desk.old.value piece.old.value result desk.new.value piece.new.value }
{
    let Some(mut host) = desk.take_out(alloc) else {
        return Answer::Shut.code();
    };
    let answer = take(alloc, &mut host, piece);
    desk.put(host);
    answer.code()
}

/// Takes what can be done next into a piece that is shut. Room for it is made before.
fn take(alloc: Global, host: &mut Host, piece: &mut PieceHandle) -> Answer
    ensures { TakenInto host.old piece.old.value result host.new piece.new.value }
{
    let mut room = match room_for(alloc, piece) {
        Ok(room) => room,
        Err(answer) => return answer,
    };
    let (answer, taken) = host.take();
    if answer == Answer::Done {
        *room = taken;
        piece.put(room);
        return answer;
    }
    answer
}

/// Room for the work of a piece that is shut, or why there is none.
fn room_for(alloc: Global, piece: &mut PieceHandle) -> Result<Box<Piece>, Answer>
    ensures ok { IfOk result (λ b. b.value ≡ pieces.Empty × piece.old.value ≡ []) }
    ensures err { IfErr result (HasNoRoom piece.old.value) }
    ensures same { piece.new.value ≡ piece.old.value }
{
    if let Some(work) = piece.take_out(alloc) {
        piece.put(work);
        return Err(Answer::InUse);
    }
    match Box::new(alloc, Piece::Empty) {
        Ok(room) => Ok(room),
        Err(_) => Err(Answer::NoMemory),
    }
}

#[unsafe(no_mangle)]
pub extern "C" fn strokes_work(alloc: Global, piece: &mut PieceHandle) -> u32
    ensures { WorkedOn piece.old.value result piece.new.value }
{
    let Some(mut work) = piece.take_out(alloc) else {
        return Answer::Shut.code();
    };
    let answer = work.work(alloc);
    piece.put(work);
    answer.code()
}

#[unsafe(no_mangle)]
pub extern "C" fn strokes_share(
    alloc: Global,
    piece: &mut PieceHandle,
    shares: u32,
    other: &mut PieceHandle,
) -> u32
    ensures { SharedOut shares piece.old.value other.old.value
        result piece.new.value other.new.value }
{
    let Some(mut work) = piece.take_out(alloc) else {
        return Answer::Shut.code();
    };
    let answer = share(alloc, &mut work, shares, other);
    piece.put(work);
    answer.code()
}

/// Gives some of the tiles of a piece's walk to a piece that is shut.
fn share(alloc: Global, work: &mut Piece, shares: u32, other: &mut PieceHandle) -> Answer
    ensures { SharedInto shares work.old other.old.value result work.new other.new.value }
{
    let mut room = match room_for(alloc, other) {
        Ok(room) => room,
        Err(answer) => return answer,
    };
    let (answer, part) = work.share(alloc, shares);
    if answer == Answer::Done {
        *room = part;
        other.put(room);
        return answer;
    }
    answer
}

#[unsafe(no_mangle)]
pub extern "C" fn strokes_give(
    alloc: Global,
    desk: &mut DeskHandle,
    piece: &mut PieceHandle,
    drawn: &mut StrokesRect,
) -> u32
    ensures { GavePiece desk.old.value piece.old.value drawn.old
        result desk.new.value piece.new.value drawn.new }
{
    let Some(mut host) = desk.take_out(alloc) else {
        return Answer::Shut.code();
    };
    let answer = give(alloc, &mut host, piece, drawn);
    desk.put(host);
    answer.code()
}

/// Gives a piece back.
fn give(alloc: Global, host: &mut Host, piece: &mut PieceHandle, drawn: &mut StrokesRect) -> Answer
    ensures { GivenFrom host.old piece.old.value drawn.old
        result host.new piece.new.value drawn.new }
{
    let Some(mut work) = piece.take_out(alloc) else {
        return Answer::Shut;
    };
    let (answer, patch) = host.give(&mut work);
    if answer == Answer::Done {
        *drawn = rect_of(&patch);
        return answer;
    }
    piece.put(work);
    answer
}

#[unsafe(no_mangle)]
pub extern "C" fn strokes_close_piece(alloc: Global, piece: &mut PieceHandle)
    ensures { piece.new.value ≡ [] }
{
    drop(piece.take_out(alloc));
}

#[unsafe(no_mangle)]
pub extern "C" fn strokes_small(alloc: Global, desk: &mut DeskHandle) -> u32
    ensures { Called Painted desk.old.value result desk.new.value }
{
    let Some(mut host) = desk.take_out(alloc) else {
        return Answer::Shut.code();
    };
    let answer = host.small();
    desk.put(host);
    answer.code()
}

#[unsafe(no_mangle)]
pub extern "C" fn strokes_settle(alloc: Global, desk: &mut DeskHandle) -> u32
    ensures { Called AllDone desk.old.value result desk.new.value }
{
    let Some(mut host) = desk.take_out(alloc) else {
        return Answer::Shut.code();
    };
    let answer = host.settle();
    desk.put(host);
    answer.code()
}

#[unsafe(no_mangle)]
pub extern "C" fn strokes_all_closed(alloc: Global, desk: &mut DeskHandle) -> u32
    ensures { Called ClosedTold desk.old.value result desk.new.value }
{
    let Some(host) = desk.take_out(alloc) else {
        return Answer::Shut.code();
    };
    let answer = closed(host.all_closed());
    desk.put(host);
    answer.code()
}

/// The answer to whether all strokes are closed.
fn closed(all: bool) -> Answer
    ensures { result ≡ closed_answer all }
{
    if all {
        Answer::Done
    } else {
        Answer::Fault(Cause::StrokeLeft)
    }
}

#[unsafe(no_mangle)]
pub extern "C" fn strokes_open(
    alloc: Global,
    desk: &mut DeskHandle,
    canvas: &StrokesCanvas,
    slots: u8,
) -> u32
    ensures { Opened (canvas_by canvas.now) slots desk.old.value result desk.new.value }
{
    if let Some(host) = desk.take_out(alloc) {
        desk.put(host);
        return Answer::InUse.code();
    }
    let Some(canvas) = canvas_within(canvas) else {
        return Answer::Fault(Cause::Range).code();
    };
    if slots < 1 || slots > 17 {
        return Answer::Fault(Cause::Range).code();
    }
    match open(alloc, canvas, slots) {
        Some(host) => {
            desk.put(host);
            Answer::Done.code()
        }
        None => Answer::NoMemory.code(),
    }
}

/// A desk on which nothing was fed. None where there is no memory for it.
fn open(alloc: Global, canvas: Canvas, slots: u8) -> Option<Box<Host>>
    requires canvas { IsOfCanvasLimits canvas }
    requires some { 1 ≤ slots }
    requires few { slots ≤ 17 }
    ensures { IfSome result (λ b. b.value ≡ new_state canvas slots) }
{
    let Ok(host) = Host::open(alloc, canvas, slots) else {
        return None;
    };
    match Box::new(alloc, host) {
        Ok(host) => Some(host),
        Err(_) => None,
    }
}

#[unsafe(no_mangle)]
pub extern "C" fn strokes_open_script(
    alloc: Global,
    desk: &mut DeskHandle,
    text: &[u8],
    slots: u8,
    line: &mut u32,
) -> u32
    ensures { OpenedScript text.now slots desk.old.value line.old result desk.new.value line.new }
{
    if let Some(host) = desk.take_out(alloc) {
        desk.put(host);
        return Answer::InUse.code();
    }
    if slots < 1 || slots > 17 {
        *line = 0;
        return Answer::Fault(Cause::Range).code();
    }
    if text.len() >= 4_294_967_295 {
        return Answer::NoRoom.code();
    }
    match open_script(alloc, text, slots) {
        Ok(host) => {
            desk.put(host);
            Answer::Done.code()
        }
        Err(ReadRefusal::Fault(fault)) => {
            *line = fault.line;
            Answer::Fault(fault.cause).code()
        }
        Err(ReadRefusal::NoMemory) => Answer::NoMemory.code(),
    }
}

/// A desk that was fed a script.
fn open_script(alloc: Global, text: &[u8], slots: u8) -> Result<Box<Host>, ReadRefusal>
    requires short { length text.now < 4294967295 }
    requires some { 1 ≤ slots }
    requires few { slots ≤ 17 }
    ensures ok { IfOk result (λ b. OpensScript text.now slots (Ok b.value)) }
    ensures err { IfErr result (λ e. OpensScript text.now slots (Err e)) }
{
    let host = Host::open_script(alloc, text, slots)?;
    match Box::new(alloc, host) {
        Ok(host) => Ok(host),
        Err(_) => Err(ReadRefusal::NoMemory),
    }
}

#[unsafe(no_mangle)]
pub extern "C" fn strokes_frame_row(
    alloc: Global,
    desk: &mut DeskHandle,
    frame: u64,
    y: u16,
    out: &mut [u8],
) -> u32
    ensures same { desk.new.value ≡ desk.old.value }
    ensures told { RowCalled frame y out.old desk.old.value result out.new }
{
    let Some(host) = desk.take_out(alloc) else {
        return Answer::Shut.code();
    };
    let answer = host.frame_row(frame, y, out);
    desk.put(host);
    answer.code()
}

#[unsafe(no_mangle)]
pub extern "C" fn strokes_count_of(
    alloc: Global,
    desk: &mut DeskHandle,
    out: &mut StrokesCount,
) -> u32
    ensures same { desk.new.value ≡ desk.old.value }
    ensures told { CountTold desk.old.value result out.old out.new }
{
    let Some(host) = desk.take_out(alloc) else {
        return Answer::Shut.code();
    };
    *out = StrokesCount {
        commands: host.command_count() as u64,
        outcomes: host.outcome_count() as u64,
        frames: host.frame_count() as u64,
    };
    desk.put(host);
    Answer::Done.code()
}

#[unsafe(no_mangle)]
pub extern "C" fn strokes_canvas_of(
    alloc: Global,
    desk: &mut DeskHandle,
    out: &mut StrokesCanvas,
) -> u32
    ensures same { desk.new.value ≡ desk.old.value }
    ensures told { CanvasTold desk.old.value result out.old out.new }
{
    let Some(host) = desk.take_out(alloc) else {
        return Answer::Shut.code();
    };
    *out = canvas_of(&host.canvas());
    desk.put(host);
    Answer::Done.code()
}

#[unsafe(no_mangle)]
pub extern "C" fn strokes_outcome_at(
    alloc: Global,
    desk: &mut DeskHandle,
    entry: u64,
    out: &mut StrokesOutcome,
) -> u32
    ensures same { desk.new.value ≡ desk.old.value }
    ensures told { OutcomeAsked entry desk.old.value result out.old out.new }
{
    let Some(host) = desk.take_out(alloc) else {
        return Answer::Shut.code();
    };
    let answer = outcome_at(&host, entry, out);
    desk.put(host);
    answer.code()
}

/// Tells what became of an entry.
fn outcome_at(host: &Host, entry: u64, out: &mut StrokesOutcome) -> Answer
    ensures { OutcomeTold host.now entry result out.old out.new }
{
    match host.outcome(entry) {
        Some(outcome) => {
            *out = outcome_of(&outcome);
            Answer::Done
        }
        None => Answer::Outside,
    }
}

#[unsafe(no_mangle)]
pub extern "C" fn strokes_text(
    alloc: Global,
    desk: &mut DeskHandle,
    next: &mut u64,
    out: &mut [u8],
    written: &mut usize,
) -> u32
    ensures same { desk.new.value ≡ desk.old.value }
    ensures told { TextCalled desk.old.value next.old out.old written.old
        result next.new out.new written.new }
{
    let Some(host) = desk.take_out(alloc) else {
        return Answer::Shut.code();
    };
    let answer = text(&host, next, out, written);
    desk.put(host);
    answer.code()
}

/// Writes as many lines of what was fed as there is room for.
fn text(host: &Host, next: &mut u64, out: &mut [u8], written: &mut usize) -> Answer
    ensures { TextGiven host.now next.old out.old written.old result next.new out.new written.new }
{
    match host.text(*next, out) {
        Ok(told) => {
            *next = told.next;
            *written = told.bytes;
            Answer::Done
        }
        Err(answer) => answer,
    }
}

#[unsafe(no_mangle)]
pub extern "C" fn strokes_tile(
    alloc: Global,
    desk: &mut DeskHandle,
    col: u8,
    row: u8,
    out: &mut [u8],
    dirty: &mut StrokesRect,
) -> u32
    ensures same { desk.new.value ≡ desk.old.value }
    ensures told { TileCalled (tile_key col row) desk.old.value out.old dirty.old
        result out.new dirty.new }
{
    let Some(host) = desk.take_out(alloc) else {
        return Answer::Shut.code();
    };
    let answer = tile(&host, col, row, out, dirty);
    desk.put(host);
    answer.code()
}

/// Copies the pixels of a tile, and tells what of it isn't the picture's.
fn tile(host: &Host, col: u8, row: u8, out: &mut [u8], dirty: &mut StrokesRect) -> Answer
    ensures { TileGiven host.now (tile_key col row) out.old dirty.old result out.new dirty.new }
{
    let (answer, part) = host.tile(col, row, out);
    if answer == Answer::Done {
        *dirty = rect_of(&part);
        return answer;
    }
    answer
}

#[unsafe(no_mangle)]
pub extern "C" fn strokes_shoot(
    alloc: Global,
    desk: &mut DeskHandle,
    shot: &mut ShotHandle,
    dirty: &mut StrokesRect,
) -> u32
    ensures same { desk.new.value ≡ desk.old.value }
    ensures told { TookShot desk.old.value shot.old.value dirty.old
        result shot.new.value dirty.new }
{
    let Some(host) = desk.take_out(alloc) else {
        return Answer::Shut.code();
    };
    let answer = shoot(alloc, &host, shot, dirty);
    desk.put(host);
    answer.code()
}

/// Takes a shot of the root's picture.
fn shoot(alloc: Global, host: &Host, shot: &mut ShotHandle, dirty: &mut StrokesRect) -> Answer
    ensures { ShotTaken host.now shot.old.value dirty.old result shot.new.value dirty.new }
{
    let Some(taken) = new_shot(alloc, host) else {
        return Answer::NoMemory;
    };
    shot.put(taken);
    *dirty = rect_of(&host.dirty());
    Answer::Done
}

/// The root's picture as it is now. None where there is no memory for it.
fn new_shot(alloc: Global, host: &Host) -> Option<Box<Shot>>
    ensures { IfSome result (λ b. ShowsCache host.now.caches host.now.canvas b.value) }
{
    let Ok(taken) = host.shoot() else {
        return None;
    };
    match Box::new(alloc, taken) {
        Ok(taken) => Some(taken),
        Err(_) => None,
    }
}

#[unsafe(no_mangle)]
pub extern "C" fn strokes_shot_row(
    alloc: Global,
    shot: &mut ShotHandle,
    x: u16,
    y: u16,
    w: u16,
    out: &mut [u8],
) -> u32
    ensures same { shot.new.value ≡ shot.old.value }
    ensures told { PartCalled x y w shot.old.value out.old result out.new }
{
    let Some(taken) = shot.take_out(alloc) else {
        return Answer::Shut.code();
    };
    let answer = taken.row(x, y, w, out);
    shot.put(taken);
    answer.code()
}

#[unsafe(no_mangle)]
pub extern "C" fn strokes_close_shot(alloc: Global, shot: &mut ShotHandle)
    ensures { shot.new.value ≡ [] }
{
    drop(shot.take_out(alloc));
}
