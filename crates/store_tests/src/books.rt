//! A book of a device's revisions: what is rolled back, rolled forward, dropped, purged and forgotten.

ghost use Rattle.std.specs.Prelude.{◌≡◌, ◌<◌, true, None, Some, All, is_some, pos, IfOk, OnOk};
ghost use Rattle.memento_core.specs.Planes.{Keyed};
ghost use Rattle.memento_core.specs.Revisions.{AllStand};
ghost use Rattle.tile_core.specs.Pixels.{Pixels};
ghost use Rattle.geom_core.specs.Grid.{Key, key};
ghost use Rattle.std.specs.FinMap as map;

use crate::fixtures::{ORIGIN, red};
use geom_core::{NoMemory, Rect, Touched};
use memento_core::{Book, Steps};
use paint_device::Device;
use pixel_core::Pixel;
use std::alloc::Global;
use std::marker::Brand;
use std::process::Abort;
use std::sync::ledger::{Blank, Ledger};
use std::test::Fail;
use tile_core::{Block, Tile};

/// A device with that key and no tile, and a book of it.
fn made(alloc: Global) -> Result<(Device, Book<Tile>), NoMemory>
    ensures closed { IfOk result (λ m. m.1.index ≡ None) }
    ensures past { IfOk result (λ m. All (λ r. AllStand r m.0.tiles) m.1.past) }
    ensures redo { IfOk result (λ m. All (λ r. AllStand r m.0.tiles) m.1.redo) }
{
    let mut device = Device::new(alloc, Pixel::CLEAR);
    device.ready(ORIGIN)?;
    Ok((device, Book::new(alloc)))
}

/// A red point at (0, 0), to be laid on its tile.
fn point(rt: &impl Abort, alloc: Global) -> Result<Block, NoMemory>
    ensures { IfOk result (λ b. b.key ≡ key (pos 0) (pos 0)) }
{
    let one = Rect::new(0, 0, 1, 1).expect(rt, "a rectangle of the world");
    let mut block = Block::new(alloc, ORIGIN, one)?;
    block.set(0, 0, red());
    Ok(block)
}

/// Opens a transaction on a device without a tile, notes the key twice, and paints.
fn paints(
    alloc: Global,
    book: &mut Book<Tile>,
    device: &mut Device,
    block: &Block,
) -> Result<(), NoMemory>
    requires closed { book.old.index ≡ None }
    requires key { block.now.key ≡ key (pos 0) (pos 0) }
    ensures open { OnOk result (is_some book.new.index ≡ true) }
    ensures stand { OnOk result ((r : Keyed Pixels) → book.new.index ≡ Some r
        → AllStand r device.new.tiles) }
    ensures past { OnOk result (book.new.past ≡ book.old.past) }
    ensures redo { OnOk result (book.new.redo ≡ book.old.redo) }
    ensures keys { OnOk result ((q : Key) → map.contains_key device.old.tiles q ≡ true
        → map.contains_key device.new.tiles q ≡ true) }
{
    book.begin()?;
    book.note(ORIGIN, None)?;
    book.note(ORIGIN, None)?;
    device.write_region(alloc, block)?;
    Ok(())
}

/// What is asked of a book, between transactions.
#[derive(Clone, Copy)]
enum Call {
    /// A red point is painted where no tile stands, and the transaction closed.
    Paint,
    /// The same, and the transaction is dropped.
    PaintAndDrop,
    Back,
    Forth,
    /// All that can be rolled back goes.
    Purge,
    Forget,
}

/// Does what is asked, and tells what was exchanged.
fn does<L: Ledger>(
    alloc: Global,
    call: Call,
    book: &mut Book<Tile>,
    device: &mut Device,
    block: &Block,
    steps: &mut Steps<L>,
) -> Result<Option<Touched>, NoMemory>
    requires closed { book.old.index ≡ None }
    requires key { block.now.key ≡ key (pos 0) (pos 0) }
    requires past { All (λ r. AllStand r device.old.tiles) book.old.past }
    requires redo { All (λ r. AllStand r device.old.tiles) book.old.redo }
    ensures closed { OnOk result (book.new.index ≡ None) }
    ensures past { OnOk result (All (λ r. AllStand r device.new.tiles) book.new.past) }
    ensures redo { OnOk result (All (λ r. AllStand r device.new.tiles) book.new.redo) }
{
    match call {
        Call::Paint => {
            paints(alloc, book, device, block)?;
            book.commit();
            Ok(None)
        }
        Call::PaintAndDrop => {
            paints(alloc, book, device, block)?;
            Ok(Some(book.drop_open(device, steps)))
        }
        Call::Back => Ok(book.rollback(device, steps)),
        Call::Forth => Ok(book.rollforward(device, steps)),
        Call::Purge => {
            book.purge(0);
            Ok(None)
        }
        Call::Forget => {
            book.forget_redo();
            Ok(None)
        }
    }
}

/// A revision that was rolled back stands until the next one is closed, and a dropped transaction leaves it.
fn answers<L: Ledger>(rt: &impl Abort, alloc: Global, blank: Blank) -> Result<(), NoMemory>
    requires name { blank.name ≡ L.name }
    requires parts { blank.parts ≡ L.parts }
    requires some { 0 < blank.parts }
{
    let (mut device, mut book) = made(alloc)?;
    let mut steps = Steps::<L>::new(blank);
    let block = point(rt, alloc)?;
    let (clear, red) = (Pixel::CLEAR, red());
    let origin = Some(Touched {
        count: 1,
        bound: Some(ORIGIN.rect()),
    });
    for (call, touched, pixel) in [
        (Call::Paint, None, red),
        (Call::Back, origin, clear),
        (Call::PaintAndDrop, origin, clear),
        (Call::Back, None, clear),
        (Call::Purge, None, clear),
        (Call::Forth, origin, red),
        (Call::Forth, None, red),
        (Call::Back, origin, clear),
        (Call::Forget, None, clear),
        (Call::Forth, None, clear),
        (Call::Paint, None, red),
        (Call::Purge, None, red),
        (Call::Back, None, red),
    ] {
        let told = does(alloc, call, &mut book, &mut device, &block, &mut steps)?;
        assert!(rt; told == touched && device.at(0, 0) == pixel);
    }
    Ok(())
}

#[test]
fn revisions_back_and_forth(rt: HostRuntime) -> Result<(), Fail> {
    answers::<Brand>(&rt, rt.alloc(), Blank::new(1))?;
    Ok(())
}
