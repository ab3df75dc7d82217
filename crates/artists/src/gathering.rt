//! What artists made, put together.
ghost use Rattle.std.specs.Prelude.{◌≡◌, ◌&&◌, IfSome};
ghost use Rattle.std.specs.List.{AllByRecursion};
ghost use Rattle.turn_lock.specs.Passes.{joined};
ghost use Rattle.artists.specs.Senders.{IsOne, IsAll};

use crate::sending::Sender;
use studio::Studio;

/// A sender takes in another, which took in those of a list.
fn take_in(studio: &Studio, sender: Sender, others: Sender) -> Sender
    requires studio { (sender.pass.lock ≡ studio.now.id) × (others.pass.lock ≡ studio.now.id) }
    ensures pass { result.pass ≡ joined sender.pass others.pass }
    ensures done { result.done ≡ (sender.done && others.done) }
{
    let Sender { mut pass, done } = sender;
    studio.back(&mut pass, others.pass);
    Sender {
        pass,
        done: done && others.done,
    }
}

/// The first sender, which takes in all others. None where there are none.
#[tactic(auto, using(crate::proofs::Whole::takes_first, crate::proofs::Whole::takes_more, crate::proofs::Whole::takes_all, crate::proofs::Whole::last_is_one))]
pub(crate) fn gather(studio: &Studio, mut senders: Vec<Sender>) -> Option<Sender>
    requires each { AllByRecursion (IsOne studio.now.id) senders.items }
    ensures all { IfSome result (λ s. IsAll studio.now.id senders.items s) }
{
    let mut all = senders.pop()?;
    while let Some(sender) = senders.pop() {
        all = take_in(studio, sender, all);
    }
    Some(all)
}
