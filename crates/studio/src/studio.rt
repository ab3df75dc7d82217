//! The studio and its passes.
ghost use Rattle.std.specs.Prelude.{◌≡◌, ◌<◌, ◌≤◌, ℕ, length, slice_get, true, IfOk};
ghost use Rattle.doc_model.specs.Canvases.{IsOfLimits};
ghost use Rattle.doc_model.specs.Feeding.{lawful};
ghost use Rattle.turn_lock.specs.History.{made_by};
ghost use Rattle.turn_lock.specs.Answers.{added};
ghost use Rattle.turn_lock.specs.Passes.{all_fresh, called, joined, own, HasTurn};
ghost use Rattle.studio.specs.Histories.{signed, signed_all, signer, commands_of, may_be_next};

use crate::signed::Signed;
use crate::stage::Stage;
use desk_core::Desk;
use doc_model::{Canvas, Command};
use geom_core::NoMemory;
use std::alloc::Global;
use std::marker::Model;
use std::sync::Wait;
use turn_lock::{Sent, TurnLock};

/// What an artist calls with. Contracts see what it knows: the artists' numbers that it keeps, its own
/// first, the commands that these made, the history that it has seen, and how many calls ended.
pub type Pass = turn_lock::Pass<Signed, Canvas, Stage>;

/// A desk that several artists feed. Contracts see which studio it is, how many artists it has, and its
/// canvas.
#[derive(Drop)]
pub struct Studio {
    lock: TurnLock<Signed, Canvas, Stage>,
}

impl Model for Studio {
    ghost use Rattle.studio.specs.Histories.{Room};

    ghost Value = { Room };

    ghost view = { λ s. record { id = s.lock.id; artists = s.lock.artists; canvas = s.lock.fixed } };
}

/// The desk of a studio that was closed, and of each command that it was fed, in that order, the artist's
/// number: the history is both.
#[derive(Drop)]
pub struct Closed {
    pub desk: Desk,
    pub signers: Vec<u32>,
}

impl Closed {
    /// The command at place `i` of the history, from 0 on, and the number of the artist who sent it. None
    /// exactly where the history has no such place.
    pub fn signed(&self, i: usize) -> Option<Signed>
        ensures { result ≡ slice_get (signed_all self.now.signers.items self.now.desk.fed) i }
    {
        let artist = *self.signers.get(i)?;
        let command = *self.desk.commands().get(i)?;
        Some(Signed { artist, command })
    }
}

impl Studio {
    /// A studio round a new desk of that canvas, with so many slots; and a pass for each artist, with the
    /// numbers 0 up.
    ///
    /// # Errors
    /// `NoMemory`.
    pub fn new(
        alloc: Global,
        canvas: Canvas,
        slots: u8,
        artists: u8,
    ) -> Result<(Studio, Vec<Pass>), NoMemory>
        requires canvas { IsOfLimits canvas }
        requires some { 1 ≤ slots }
        requires few { slots ≤ 17 }
        requires artists { artists ≤ 16 }
        ensures artists { IfOk result (λ r. r.0.artists ≡ artists) }
        ensures canvas { IfOk result (λ r. r.0.canvas ≡ canvas) }
        ensures passes { IfOk result (λ r. r.1.items ≡ all_fresh r.0.id artists) }
    {
        let stage = Stage {
            desk: Desk::new(alloc, canvas, slots)?,
            signers: Vec::new(alloc),
        };
        let (lock, passes) = TurnLock::new(alloc, artists, canvas, stage)?;
        Ok((Studio { lock }, passes))
    }

    /// Feeds the command to the desk at the pass's turn, exactly where it may follow the commands fed
    /// until then. It waits for the turn.
    ///
    /// # Errors
    /// `NoMemory`; the command wasn't fed.
    pub fn send<R: Wait>(
        &self,
        rt: &R,
        pass: &mut Pass,
        command: &Command,
    ) -> Result<Sent, NoMemory>
        requires studio { pass.old.lock ≡ self.now.id }
        requires few { pass.old.calls < 1048576 }
        ensures turn { HasTurn signer may_be_next pass.old.numbers pass.old.made pass.old.seen
            (signed (own pass.old) command.now) result pass.new.seen }
        ensures pass { pass.new ≡ called pass.old (added (signed (own pass.old) command.now) result)
            pass.new.seen }
        ensures lawful { lawful (commands_of pass.new.seen) ≡ true }
    {
        let entry = Signed {
            artist: pass.artist(),
            command: *command,
        };
        self.lock.send(rt, pass, &entry)
    }

    /// The pass takes in another one, which is spent. No memory.
    pub fn back(&self, pass: &mut Pass, other: Pass)
        requires studio { (pass.old.lock ≡ self.now.id) × (other.lock ≡ self.now.id) }
        ensures { pass.new ≡ joined pass.old other }
    {
        self.lock.back(pass, other);
    }

    /// The desk and the history, once the pass has taken in all others. No memory.
    pub fn close(self, pass: Pass) -> Closed
        requires studio { pass.lock ≡ self.id }
        requires all { length pass.numbers ≡ self.artists }
        ensures seen { signed_all result.signers.items result.desk.fed ≡ pass.seen }
        ensures each { length result.signers.items ≡ length result.desk.fed }
        ensures fed { result.desk.fed ≡ commands_of pass.seen }
        ensures made { (k : ℕ) → made_by signer k pass.seen ≡ made_by signer k pass.made }
        ensures canvas { result.desk.canvas ≡ self.canvas }
        ensures lawful { lawful result.desk.fed ≡ true }
    {
        let Studio { lock } = self;
        let Stage { desk, signers } = lock.close(pass);
        Closed { desk, signers }
    }
}
