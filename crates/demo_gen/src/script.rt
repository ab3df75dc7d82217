//! The whole script.

ghost use Rattle.std.specs.Prelude.{◌≡◌, ◌++◌, IfOk, true};
ghost use Rattle.script_text.specs.Closed.{is_script};
ghost use Rattle.pixel_core.specs.Rgba.{clear};
ghost use Rattle.doc_model.specs.declared.tree.Change.TheVariants.{Layer, Group};
ghost use Rattle.doc_model.specs.declared.command.Command.TheVariants.{Change as Changes};
ghost use Rattle.demo_gen.specs.Demo.{tree as said_tree, blocks, demo};

use crate::stroke::add_block;
use doc_model::{Canvas, Change, Command};
use geom_core::NoMemory;
use pixel_core::Pixel;
use script_text::{MakeRefusal, Script};
use std::alloc::Global;

/// How many strokes there are.
const STROKES: u32 = 40;

fn layer(id: u16, parent: u16, place: u8) -> Command
    ensures { result ≡ Changes (Layer id parent place clear) }
{
    Command::Change(Change::Layer {
        id,
        parent,
        place,
        ground: Pixel::CLEAR,
    })
}

fn group(id: u16, parent: u16, place: u8) -> Command
    ensures { result ≡ Changes (Group id parent place) }
{
    Command::Change(Change::Group { id, parent, place })
}

/// A list of these items.
fn listed<T: Copy>(alloc: Global, items: [T; 8]) -> Result<Vec<T>, NoMemory>
    ensures { IfOk result (λ v. v.items ≡ items) }
{
    let list = Vec::from_array(alloc, items)?;
    Ok(list)
}

/// Two groups with two layers each, and two layers above them.
#[tactic(auto, unfolding(crate::specs::Demo::tree))]
fn tree(alloc: Global) -> Result<Vec<Command>, NoMemory>
    ensures { IfOk result (λ v. v.items ≡ said_tree) }
{
    let nodes = [
        group(1, 0, 0),
        group(2, 0, 1),
        layer(3, 1, 0),
        layer(4, 1, 1),
        layer(5, 2, 0),
        layer(6, 2, 1),
        layer(7, 0, 2),
        layer(8, 0, 3),
    ];
    listed(alloc, nodes)
}

/// All commands, the strokes in the order of their numbers.
fn commands_of(alloc: Global, number: u32) -> Result<Vec<Command>, NoMemory>
    ensures { IfOk result (λ v. v.items ≡ said_tree ++ blocks 40 number) }
{
    let mut commands = tree(alloc)?;
    let mut state = u64::from(number);
    for k in 0..STROKES {
        add_block(&mut commands, &mut state, k + 1)?;
    }
    Ok(commands)
}

/// The script of that number: a canvas of 800 by 600, a tree of six layers in two groups and the
/// root, and forty strokes of 24 dabs and a move each, some of them cancelled, undone or redone,
/// with looks and exports between them. Each number is always the same script.
///
/// # Errors
/// `NoMemory` where no memory is left.
#[tactic(auto, using(crate::proofs::Whole::demo_is_script), unfolding(crate::specs::Demo::demo))]
pub fn script_of(alloc: Global, number: u32) -> Result<Script, NoMemory>
    ensures made { IfOk result (λ s. s ≡ demo number) }
    ensures script { is_script (demo number) ≡ true }
{
    let canvas = Canvas {
        w: 800,
        h: 600,
        paper: Pixel::new(255, 255, 255, 255),
    };
    let commands = commands_of(alloc, number)?;
    match Script::from_commands(alloc, canvas, commands) {
        Ok(script) => Ok(script),
        Err(MakeRefusal::NoMemory) => Err(NoMemory),
        Err(MakeRefusal::NotScript) => unreachable!(),
    }
}
