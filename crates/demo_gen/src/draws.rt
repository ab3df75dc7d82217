//! A generator of numbers that are the same on every machine.

ghost use Rattle.std.specs.Prelude.{◌≡◌, ◌≤◌, ◌<◌};
ghost use Rattle.demo_gen.specs.Demo.{next, told};

/// Moves the state on by one draw, and tells a number below n, which is 1 or more.
#[tactic(auto, unfolding(crate::specs::Demo::next, crate::specs::Demo::told))]
pub fn draw(state: &mut u64, n: u32) -> u32
    requires some { 1 ≤ n }
    ensures state { state.new ≡ next state.old }
    ensures told { result ≡ told (next state.old) n }
    ensures below { result < n }
{
    let product = state.wrapping_mul(6364136223846793005);
    *state = product.wrapping_add(1442695040888963407);
    ((*state / 8589934592) % u64::from(n)) as u32
}
