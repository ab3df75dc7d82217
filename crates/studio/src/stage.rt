//! What lies under the studio's lock.
ghost use Rattle.std.specs.Prelude.{◌≡◌, ◌<◌, ◌-◌, ◌^◌, ◌++◌, ◌∷◌, [], length, cond, Ok, Err, IfOk, OnErr};
ghost use Rattle.doc_model.specs.Lawful.{may_follow};
ghost use Rattle.doc_model.specs.Strokes.{entries};

use crate::signed::Signed;
use desk_core::Desk;
use doc_model::{Canvas, Command};
use geom_core::NoMemory;
use turn_lock::{Board, Sent};

/// A desk, and of each command that it was fed the artist's number.
#[derive(Drop)]
pub struct Stage {
    pub desk: Desk,
    pub signers: Vec<u32>,
    pub ghost count: { length signers.items ≡ length desk.fed },
}

/// Feeds the command where it may follow those that were fed, and says whether it may.
fn feed(desk: &mut Desk, command: &Command) -> Result<bool, NoMemory>
    requires few { length desk.old.fed < 2 ^ 32 - 1 }
    ensures canvas { desk.new.canvas ≡ desk.old.canvas }
    ensures told { IfOk result (λ may. may ≡ may_follow (entries desk.old.fed) command.now) }
    ensures fed { IfOk result (λ may. desk.new.fed ≡ cond may (desk.old.fed ++ command.now ∷ [])
        desk.old.fed) }
    ensures err { OnErr result (desk.new.fed ≡ desk.old.fed) }
{
    let may = desk.lawful(command);
    if may {
        desk.feed(command)?;
    }
    Ok(may)
}

impl Board<Signed, Canvas> for Stage {
    ghost use Rattle.studio.specs.Histories.{signed_all, signer, may_be_next};

    ghost history = { λ s. signed_all s.signers.items s.desk.fed };

    ghost fixed = { λ s. s.desk.canvas };

    ghost artist = { signer };

    ghost lawful = { may_be_next };

    #[tactic(auto, using(crate::proofs::Signing::all_length, crate::proofs::Signing::all_commands, crate::proofs::Signing::all_last))]
    fn accept(&mut self, entry: &Signed) -> Result<Sent, NoMemory> {
        let place = self.signers.len() as u64;
        self.signers.reserve(1)?;
        if !feed(&mut self.desk, &entry.command)? {
            return Ok(Sent::Unlawful);
        }
        self.signers.push_reserved(entry.artist);
        Ok(Sent::Accepted { place })
    }
}
