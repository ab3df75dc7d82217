//! The words of a command line.

ghost use Rattle.std.specs.Prelude.{◌≡◌, [], ◌∷◌, ◌++◌, OnOk, OnErr, map, string_bytes};

use geom_core::NoMemory;
use std::alloc::Global;
use std::marker::Model;

/// Words in their order, without the program's name.
#[derive(Drop)]
pub struct Words {
    texts: Vec<String>,
    alloc: Global,
}

impl Model for Words {
    ghost use Rattle.std.specs.Prelude.{List, ℕ, map, string_bytes};

    ghost Value = { List (List ℕ) };

    ghost view = { λ w. map string_bytes w.texts.items };
}

impl Words {
    /// No words.
    pub fn new(alloc: Global) -> Words
        ensures { result ≡ [] }
    {
        Words {
            texts: Vec::new(alloc),
            alloc,
        }
    }

    /// Adds a word at the end.
    pub fn add(&mut self, word: &str) -> Result<(), NoMemory>
        ensures ok { OnOk result (self.new ≡ self.old ++ word.now ∷ []) }
        ensures err { OnErr result (self.new ≡ self.old) }
    {
        let text = String::from_str(self.alloc, word)?;
        self.texts.push(text)?;
        Ok(())
    }

    /// The words.
    pub(crate) fn texts(&self) -> &[String]
        ensures { map string_bytes result.now ≡ self.now }
    {
        &self.texts
    }
}
