//! What a history keeps of a change.

ghost use Rattle.std.specs.Prelude.{◌≡◌, ◌+◌};
ghost use Rattle.doc_model.specs.Laws.{IsDocument};
ghost use Rattle.desk_steps.specs.Archives.{TellsReach, tiles_in};
ghost use Rattle.desk_steps.specs.Documents.{doc_in};
ghost use Rattle.desk_steps.specs.Entries.{doc_of, reach_in, FitsOn, FitsKeys, Trades};
ghost use Rattle.desk_steps.specs.Slots.{standing};

use crate::arrangement::Arrangement;
use crate::document::Document;
use crate::reach::Reach;
use memento_core::{Revision, Steps};
use std::sync::ledger::Ledger;
use tile_core::Tile;

/// What gives back the document from before a change, or after it.
#[derive(Drop)]
pub enum HistoryEntry {
    /// What makes the tree the other one, with the devices that it brings or takes.
    Tree(Arrangement),
    /// What stood in some tiles of a layer, which alone differ.
    Layer { id: u16, found: Revision<Tile> },
}

/// The stroke under way: its layer, and what it found in the tiles that were put.
#[derive(Drop)]
pub struct Way {
    pub id: u16,
    pub found: Revision<Tile>,
}

impl HistoryEntry {
    /// Exchanges the document with the one that the entry gives back. It tells how far the change
    /// between them reaches. One step for each tile of a layer, and no memory.
    pub fn exchange<L: Ledger>(&mut self, doc: &mut Document, steps: &mut Steps<L>) -> Reach
        requires layer { FitsOn (doc_in doc.old) self.old }
        requires there { FitsKeys (standing doc.old.tree doc.old.slots) self.old }

        // The two documents change places.
        ensures doc { doc_in doc.new ≡ doc_of (doc_in doc.old) self.old }
        ensures back { doc_of (doc_in doc.new) self.new ≡ doc_in doc.old }
        ensures same { reach_in self.new ≡ reach_in self.old }
        ensures keys { Trades (standing doc.old.tree doc.old.slots)
            (standing doc.new.tree doc.new.slots) self.old self.new }

        // What is told of it.
        ensures reach { TellsReach (reach_in self.old) (doc_in doc.new) result }
        ensures known { IsDocument (doc_in doc.new) }
        ensures counts { steps.new ≡ steps.old + tiles_in (reach_in self.old) }
    {
        match self {
            HistoryEntry::Tree(other) => {
                doc.arrange(other);
                let _tree = doc.tree();
                Reach::Whole
            }
            HistoryEntry::Layer { id, found } => {
                doc.exchange(*id, found, steps);
                match doc.tree().parent(*id) {
                    Some(group) => Reach::Part {
                        group,
                        touched: found.touched(),
                    },
                    None => unreachable!(),
                }
            }
        }
    }
}
