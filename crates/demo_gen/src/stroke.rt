//! One stroke, and what comes with it.

ghost use Rattle.std.specs.Prelude.{◌≡◌, ◌≤◌, ◌<◌, ◌++◌, ◌∷◌, [], OnOk, IfOk, pos, ◌-ℤ◌, ◌%◌, ◌==◌, if◌then◌else◌};
ghost use Rattle.geom_core.specs.Areas.{area};
ghost use Rattle.demo_gen.specs.Demo.{next, told, later, ink as said_ink, dab_op as said_dab_op, dabs, after_dabs, closing as said_closing, layer, stroke, after_stroke, only_if, look_op as said_look_op, look as said_look, block, after_block};
ghost use Rattle.demo_gen.specs.Adds.{dab as said_dab, move as said_move};

use crate::draws::draw;
use doc_model::{Change, Command, Job, Kind, Look};
use geom_core::{NoMemory, Rect};
use pixel_core::{Op, Pixel};

/// How many dabs a stroke has, six in a row.
const DABS: u32 = 24;

/// Adds an item at the end.
fn add_last<T: Copy>(items: &mut Vec<T>, item: T) -> Result<(), NoMemory>
    ensures { OnOk result (items.new.items ≡ items.old.items ++ item ∷ []) }
{
    items.push(item)?;
    Ok(())
}

/// Adds the command at the end where the test passes.
fn add_if(commands: &mut Vec<Command>, test: bool, command: Command) -> Result<(), NoMemory>
    ensures { OnOk result (commands.new.items ≡ commands.old.items ++ only_if test command) }
{
    if test {
        add_last(commands, command)?;
    }
    Ok(())
}

/// A colour of some alpha.
fn ink(state: &mut u64) -> Pixel
    ensures colour { result ≡ said_ink state.old }
    ensures state { state.new ≡ later 4 state.old }
{
    let r = draw(state, 256) as u8;
    let g = draw(state, 256) as u8;
    let b = draw(state, 256) as u8;
    let a = 64 + draw(state, 192);
    Pixel::new(r, g, b, a as u8)
}

/// Every eighth dab erases, by and large.
fn dab_op(n: u32) -> Op
    ensures { result ≡ said_dab_op n }
{
    if n == 0 { Op::Erase } else { Op::Over }
}

/// The dab at a place.
fn dab(state: &mut u64, no: u32, place: u32) -> Command
    requires { place < 24 }
    ensures command { result ≡ said_dab no place state.old }
    ensures state { state.new ≡ later 6 state.old }
{
    let x = 65 + 130 * (place % 6);
    let y = 75 + 150 * (place / 6);
    let r = draw(state, 60);
    let colour = ink(state);
    let op = dab_op(draw(state, 8));
    let job = Job::Dab {
        x: x as i32,
        y: y as i32,
        r: r as u8,
        soft: true,
        colour,
        op,
        strength: 255,
    };
    Command::Add {
        no,
        kind: Kind::Con,
        job,
    }
}

/// Adds the dabs of the stroke.
fn add_dabs(commands: &mut Vec<Command>, state: &mut u64, no: u32) -> Result<(), NoMemory>
    ensures commands { OnOk result (commands.new.items ≡ commands.old.items ++ dabs no 24
        state.old) }
    ensures state { OnOk result (state.new ≡ after_dabs 24 state.old) }
{
    for place in 0..DABS {
        let command = dab(state, no, place);
        add_last(commands, command)?;
    }
    Ok(())
}

/// How far a move goes along one axis: -100 to 100.
fn way(state: &mut u64) -> i32
    ensures way { result ≡ pos (told (next state.old) 201) -ℤ pos 100 }
    ensures state { state.new ≡ next state.old }
{
    draw(state, 201) as i32 - 100
}

/// A square of 200 by 200 points.
fn square(x: u32, y: u32) -> Rect
    requires x { x < 600 }
    requires y { y < 400 }
    ensures { result ≡ area (pos x) (pos y) 200 200 }
{
    Rect::new(x as i32, y as i32, 200, 200).unwrap()
}

/// The move of a square.
fn shift(state: &mut u64, no: u32) -> Command
    ensures command { result ≡ said_move no state.old }
    ensures state { state.new ≡ later 4 state.old }
{
    let x = draw(state, 600);
    let y = draw(state, 400);
    let dx = way(state);
    let dy = way(state);
    let job = Job::Move {
        rect: square(x, y),
        dx,
        dy,
    };
    Command::Add {
        no,
        kind: Kind::Seq,
        job,
    }
}

/// How the stroke is closed.
fn closing(no: u32) -> Command
    ensures { result ≡ said_closing no }
{
    if no % 7 == 3 {
        Command::Cancel { no }
    } else {
        Command::End { no }
    }
}

/// Adds the stroke, and tells its layer.
fn add_stroke(commands: &mut Vec<Command>, state: &mut u64, no: u32) -> Result<u16, NoMemory>
    ensures layer { IfOk result (λ id. id ≡ layer state.old) }
    ensures commands { OnOk result (commands.new.items ≡ commands.old.items ++ stroke no
        state.old) }
    ensures state { OnOk result (state.new ≡ after_stroke state.old) }
{
    let layer = 3 + draw(state, 6) as u16;
    let start = Command::Stroke {
        no,
        layer,
        exclusive: no % 10 == 0,
    };
    add_last(commands, start)?;
    add_dabs(commands, state, no)?;
    let command = shift(state, no);
    add_last(commands, command)?;
    add_last(commands, closing(no))?;
    Ok(layer)
}

/// One of the four operations that a look may have.
fn look_op(n: u32) -> Op
    ensures { result ≡ said_look_op n }
{
    match n {
        0 => Op::Over,
        1 => Op::Multiply,
        2 => Op::Screen,
        _ => Op::Addition,
    }
}

/// Another look of a layer.
fn look(state: &mut u64, id: u16) -> Command
    ensures command { result ≡ said_look id state.old }
    ensures state { state.new ≡ later 2 state.old }
{
    let opacity = 100 + draw(state, 156);
    let op = look_op(draw(state, 4));
    let look = Look {
        opacity: opacity as u8,
        op,
        visible: true,
    };
    Command::Change(Change::Look { id, look })
}

/// Adds a look of the layer with each fifth stroke.
fn add_look(commands: &mut Vec<Command>, state: &mut u64, no: u32, id: u16) -> Result<(), NoMemory>
    ensures commands { OnOk result (commands.new.items ≡ commands.old.items ++ only_if
        ((no % 5) == 0) (said_look id state.old)) }
    ensures state { OnOk result (state.new ≡ (if (no % 5) == 0 then later 2 state.old else
        state.old)) }
{
    if no % 5 == 0 {
        let command = look(state, id);
        add_last(commands, command)?;
    }
    Ok(())
}

/// Adds the stroke and what comes with it.
pub(crate) fn add_block(
    commands: &mut Vec<Command>,
    state: &mut u64,
    no: u32,
) -> Result<(), NoMemory>
    ensures commands { OnOk result (commands.new.items ≡ commands.old.items ++ block no state.old) }
    ensures state { OnOk result (state.new ≡ after_block no state.old) }
{
    let layer = add_stroke(commands, state, no)?;
    add_if(commands, no % 9 == 4, Command::Undo)?;
    add_if(commands, no % 18 == 4, Command::Redo)?;
    add_look(commands, state, no, layer)?;
    add_if(commands, no % 20 == 0, Command::Export)
}
