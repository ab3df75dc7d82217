//! What an artist does: it sends its commands.
ghost use Rattle.std.specs.Prelude.{◌≡◌, ◌<◌, ◌++◌, [], ◌∷◌, true, vec_len, IfOk};
ghost use Rattle.turn_lock.specs.Passes.{all_fresh, own};
ghost use Rattle.studio.specs.Histories.{signed};
ghost use Rattle.artists.specs.SignedShares.{share};
ghost use Rattle.artists.specs.Senders.{AreSenders};

use crate::shares::artist_for;
use doc_model::Command;
use geom_core::NoMemory;
use io_edge::Gate;
use std::sync::Wait;
use std::thread;
use std::thread::Threads;
use studio::{Pass, Sent, Studio};

/// How many calls a pass may make.
const MOST: u32 = 1_048_576;

/// An artist that has sent commands, and whether all of them were accepted.
#[derive(Drop)]
pub(crate) struct Sender {
    pub(crate) pass: Pass,
    pub(crate) done: bool,
}

/// Sends a command. `false` where it wasn't accepted.
fn send<R: Wait>(rt: &R, studio: &Studio, pass: &mut Pass, command: &Command) -> bool
    requires studio { pass.old.lock ≡ studio.now.id }
    ensures studio { pass.new.lock ≡ pass.old.lock }
    ensures numbers { pass.new.numbers ≡ pass.old.numbers }
    ensures made { result ≡ true →
        pass.new.made ≡ pass.old.made ++ signed (own pass.old) command.now ∷ [] }
{
    if pass.calls() >= MOST {
        return false;
    }
    match studio.send(rt, pass, command) {
        Ok(Sent::Accepted { place: _ }) => true,
        Ok(Sent::Unlawful) => false,
        Err(NoMemory) => false,
    }
}

/// Sends the command, if it's one of this artist's. `false` where it wasn't accepted.
fn send_own<R: Wait>(
    rt: &R,
    studio: &Studio,
    pass: &mut Pass,
    artists: u8,
    command: &Command,
) -> bool
    requires studio { pass.old.lock ≡ studio.now.id }
    requires some { 0 < artists }
    ensures studio { pass.new.lock ≡ pass.old.lock }
    ensures numbers { pass.new.numbers ≡ pass.old.numbers }
    ensures made { result ≡ true →
        pass.new.made ≡ pass.old.made ++ share artists (own pass.old) (command.now ∷ []) }
{
    let is_own = artist_for(artists, command) == pass.artist();
    if is_own {
        send(rt, studio, pass, command)
    } else {
        true
    }
}

/// Enters the gate, and then sends the artist's commands of a list, in their order, up to one that isn't accepted.
#[tactic(auto, using(crate::proofs::Sharing::share_more, std::proofs::lemmas::List::take_all))]
fn send_all<R: Wait, G: Gate>(
    rt: &R,
    studio: &Studio,
    mut pass: Pass,
    artists: u8,
    commands: &[Command],
    gate: &G,
) -> Sender
    requires studio { pass.lock ≡ studio.now.id }
    requires some { 0 < artists }
    requires fresh { pass.made ≡ [] }
    ensures studio { result.pass.lock ≡ pass.lock }
    ensures numbers { result.pass.numbers ≡ pass.numbers }
    ensures made { result.done ≡ true →
        result.pass.made ≡ share artists (own pass) commands.now }
{
    gate.sending(pass.artist());
    for command in commands {
        if !send_own(rt, studio, &mut pass, artists, command) {
            return Sender { pass, done: false };
        }
    }
    Sender { pass, done: true }
}

/// Each artist sends its commands, from a thread of its own where one can be made.
pub(crate) fn send_together<R: Threads + Wait + Sync, G: Gate>(
    rt: &R,
    studio: &Studio,
    passes: Vec<Pass>,
    artists: u8,
    commands: &[Command],
    gate: &G,
) -> Result<Vec<Sender>, NoMemory>
    requires some { 0 < artists }
    requires passes { passes.items ≡ all_fresh studio.now.id artists }
    ensures each { IfOk result (λ senders.
        AreSenders studio.now.id artists commands.now senders.items) }
    ensures all { IfOk result (λ senders. vec_len senders ≡ artists) }
{
    let senders = thread::map_vec(
        rt,
        passes,
        &|pass: Pass| -> Sender
            requires { (0 < artists) × (pass.lock ≡ studio.now.id) × (pass.made ≡ []) }
            ensures studio { result.pass.lock ≡ pass.lock }
            ensures numbers { result.pass.numbers ≡ pass.numbers }
            ensures made { result.done ≡ true →
                result.pass.made ≡ share artists (own pass) commands.entry.now }
        { send_all(rt, studio, pass, artists, commands, gate) },
    )?;
    Ok(senders)
}
