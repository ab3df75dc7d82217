//! A small host: it paints a stroke at a desk and takes it back, on one thread. It ends well exactly where a look
//! shows the stroke, and after the undo the clear layer.
#![tactic(auto)]

ghost use Rattle.std.specs.Prelude.{◌≡◌, ◌<◌, pos, true, false, Ok, OnOk, OnErr};
ghost use Rattle.geom_core.specs.Areas.{point};
ghost use Rattle.doc_model.specs.Picture.{picture};
ghost use Rattle.machine_model.specs.Event.{Feed};
ghost use Rattle.machine_model.specs.Sound.{IsOrderly};
ghost use Rattle.machine_model.specs.Step.{Step};
ghost use Rattle.desk_state.specs.Settles.{GoesOn, Settles};
ghost use Rattle.desk_events.specs.Tickets.{IsPaintTicket};
ghost use Rattle.small_host.specs.Host.{IsAtRest, IsRefused};

use desk_core::{Desk, Fresh, PaintTicket, Taken, WalkTicket};
use doc_model::{Canvas, Change, Command, Job, Kind, MOST_COMMANDS};
use geom_core::{NoMemory, Rect};
use memento_core::Steps;
use pixel_core::{Op, Pixel};
use std::alloc::Global;
use std::marker::Brand;
use std::process::ExitCode;
use std::sync::ledger::{Blank, Ledger};
use walker_core::compose_key;
use whole_tiles::Painting;

/// A desk for an image of 64 by 64 points on white paper. One piece of work may be out at a time.
fn open(alloc: Global) -> Result<Desk, NoMemory> {
    let canvas = Canvas {
        w: 64,
        h: 64,
        paper: Pixel::new(255, 255, 255, 255),
    };
    Desk::new(alloc, canvas, 1)
}

/// A layer, and a stroke on it that fills a rectangle.
fn stroke(rect: Rect, colour: Pixel) -> [Command; 4] {
    let layer = Change::Layer {
        id: 1,
        parent: 0,
        place: 0,
        ground: Pixel::CLEAR,
    };
    let fill = Job::Fill {
        rect,
        colour,
        op: Op::Over,
        strength: 255,
    };
    [
        Command::Change(layer),
        Command::Stroke {
            no: 1,
            layer: 1,
            exclusive: false,
        },
        Command::Add {
            no: 1,
            kind: Kind::Seq,
            job: fill,
        },
        Command::End { no: 1 },
    ]
}

/// Feeds a command. `false` exactly where it may not follow those that were fed, or these are too many.
fn feed(desk: &mut Desk, command: &Command) -> Result<bool, NoMemory>
    ensures fed { result ≡ Ok true → Step desk.old (Feed command.now) desk.new }
    ensures refused { result ≡ Ok false → IsRefused desk.old command.now }
    ensures same { result ≡ Ok false → desk.new ≡ desk.old }
    ensures err { OnErr result (desk.new ≡ desk.old) }
{
    if !desk.lawful(command) {
        return Ok(false);
    }
    if desk.fed_count() >= MOST_COMMANDS {
        return Ok(false);
    }
    desk.feed(command)?;
    Ok(true)
}

/// Paints all tiles of a job, for which no desk is needed, and brings them.
fn paint(alloc: Global, desk: &mut Desk, ticket: PaintTicket) -> Result<(), NoMemory>
    requires { IsPaintTicket ticket desk.old }
    ensures { Settles desk.old desk.new }
{
    let slot = ticket.slot;
    let painting = Painting::new(alloc, ticket.work, ticket.shot)?;
    let mut tiles = Vec::new(alloc);
    for i in 0..painting.tile_count() {
        tiles.push(painting.paint_like(alloc, i, &mut None)?)?;
    }
    desk.commit(slot, &tiles)?;
    Ok(())
}

/// Composes a walk tile by tile, for which no desk is needed, brings each, and ends the walk.
fn compose(alloc: Global, desk: &mut Desk, ticket: &WalkTicket) -> Result<(), NoMemory>
    ensures { Settles desk.old desk.new }
{
    let rect = ticket.inputs.patch().rect;
    for i in 0..rect.tile_count() {
        let key = rect.tile_at(i);
        let composed = compose_key(alloc, &ticket.inputs, key)?;
        desk.publish_row(ticket.slot, &composed, key)?;
    }
    desk.end(ticket.slot);
    Ok(())
}

/// Takes what may be done next, and does it. `false` exactly where nothing may be done.
fn work<L: Ledger>(alloc: Global, desk: &mut Desk, steps: &mut Steps<L>) -> Result<bool, NoMemory>
    ensures runs { Settles desk.old desk.new }
    ensures on { result ≡ Ok true → GoesOn desk.old desk.new }
    ensures rest { result ≡ Ok false → IsAtRest desk.old × (desk.new ≡ desk.old) }
    ensures known { IsOrderly desk.old }
{
    // (for the prover: what is sound lets only so many events happen before more is fed)
    desk.tell_sound();
    match desk.take(steps)? {
        Taken::Paint(ticket) => {
            paint(alloc, desk, ticket)?;
            Ok(true)
        }
        Taken::Walk(ticket) => {
            compose(alloc, desk, &ticket)?;
            Ok(true)
        }
        Taken::Did => Ok(true),
        Taken::Idle => Ok(false),
        Taken::Settled => Ok(false),
    }
}

/// Works until nothing may be done.
fn work_all<L: Ledger>(alloc: Global, desk: &mut Desk, steps: &mut Steps<L>) -> Result<(), NoMemory>
    ensures runs { Settles desk.old desk.new }
    ensures rest { OnOk result (IsAtRest desk.new) }
{
    'turns: loop {
        if !work(alloc, desk, steps)? {
            return Ok(());
        }
    }
}

/// Whether a look shows that pixel at a point, as that of the document as it is now.
fn shows(desk: &Desk, x: u16, y: u16, pixel: Pixel) -> bool
    ensures { result ≡ true → picture desk.now.present (point (pos x) (pos y)) ≡ pixel }
{
    let canvas = desk.canvas();
    if x >= canvas.w || y >= canvas.h {
        return false;
    }
    match desk.look(x, y) {
        (found, Fresh::Clean) => found == pixel,
        (_, Fresh::Dirty) => false,
    }
}

/// Paints a stroke and takes it back. Whether a look showed first the stroke, and then the clear layer.
fn draw<L: Ledger>(alloc: Global, rect: Rect, blank: Blank) -> Result<bool, NoMemory>
    requires name { blank.name ≡ L.name }
    requires parts { blank.parts ≡ L.parts }
    requires some { 0 < blank.parts }
{
    let red = Pixel::new(255, 0, 0, 255);
    let mut desk = open(alloc)?;
    let mut steps = Steps::<L>::new(blank);
    for command in &stroke(rect, red) {
        feed(&mut desk, command)?;
    }
    work_all(alloc, &mut desk, &mut steps)?;
    let was_there = shows(&desk, 12, 12, red);
    feed(&mut desk, &Command::Undo)?;
    work_all(alloc, &mut desk, &mut steps)?;
    Ok(was_there && shows(&desk, 12, 12, Pixel::CLEAR))
}

fn main(rt: HostRuntime) -> ExitCode {
    let Ok(rect) = Rect::new(8, 8, 16, 16) else {
        return ExitCode::FAILURE;
    };
    match draw::<Brand>(rt.alloc(), rect, Blank::new(1)) {
        Ok(true) => ExitCode::SUCCESS,
        Ok(false) | Err(NoMemory) => ExitCode::FAILURE,
    }
}
