//! The lock and its passes.
ghost use Rattle.std.specs.Prelude.{◌≡◌, ◌<◌, ◌≤◌, ◌+◌, ℕ, [], length, map, IfOk};
ghost use Rattle.std.specs.List.{range_with_len};
ghost use Rattle.turn_lock.specs.History.{Has, IsLegal, made_by};
ghost use Rattle.turn_lock.specs.Answers.{added};
ghost use Rattle.turn_lock.specs.Turns.{start_view};
ghost use Rattle.turn_lock.specs.Passes.{IsOwn, fresh, all_fresh, called, joined, PassHasTurn};
ghost use Rattle.turn_lock.specs.Steps.{SitsAt};

use crate::board::Board;
use crate::calls::call;
use crate::rule::Table;
use crate::sent::Sent;
use crate::steps::{Place, Steps, count, cut, merge};
use crate::view::Terms;
use geom_core::NoMemory;
use std::alloc::Global;
use std::marker::Model;
use std::sync::Wait;

/// A value to which several artists add entries, each in its turn. Contracts see which lock it is,
/// how many artists it has, and what stays of the value.
#[derive(Drop)]
pub struct TurnLock<E, F, D: Board<E, F>> {
    table: Table<E, F, D>,
}

impl<E, F, D: Board<E, F>> Model for TurnLock<E, F, D> {
    ghost use Rattle.std.specs.Prelude.{◌≡◌};
    ghost use Rattle.turn_lock.specs.Passes.{Lock};

    ghost Value = { Lock F };

    ghost view = { λ l. record { id = l.table.shared.table_id; artists = l.table.shared.key.artists; fixed = l.table.shared.key.fixed } };

    ghost invariant = { λ l. (l.table.shared.table_id.words ≡ 1) × (l.table.shared.table_id.slots ≡ 1) };
}

/// What an artist calls with. Contracts see what it knows.
#[derive(Drop)]
pub struct Pass<E, F, D: Board<E, F>> {
    seat: Place<E, F, D>,
    number: u32,
    calls: u32,
    taken_in: u8,
}

impl<E, F, D: Board<E, F>> Model for Pass<E, F, D> {
    ghost use Rattle.std.specs.Prelude.{◌≡◌, ◌≤◌, ◌+◌, ◌*◌, [], None, length};
    ghost use Rattle.turn_lock.specs.Passes.{Known, IsOwn};

    ghost Value = { Known E };

    ghost view = { λ p. record { lock = p.seat.table_id; numbers = p.seat.me.0.kept; made = p.seat.me.0.made; seen = p.seat.me.0.seen; calls = p.calls } };

    ghost invariant = { λ p. (p.seat.me.0.turn ≡ None) × (p.seat.me.1 ≡ []) × (length p.seat.me.0.made ≤ p.calls) × (p.calls ≤ (p.taken_in + 1) * 1048576) × (length p.seat.me.0.kept ≡ p.taken_in + 1) × IsOwn p.number p.seat.me.0.kept };
}

impl<E, F, D: Board<E, F>> Pass<E, F, D> {
    /// The number of its own artist.
    pub fn artist(&self) -> u32
        ensures { IsOwn result self.now.numbers }
    {
        self.number
    }

    /// How many calls have ended, whatever they answered, of this pass and of those that it took in.
    pub fn calls(&self) -> u32
        ensures { result ≡ self.now.calls }
    {
        self.calls
    }

    /// How many passes went back into it.
    pub fn joined(&self) -> u8
        ensures { length self.now.numbers ≡ result + 1 }
    {
        self.taken_in
    }
}

/// A pass of the artist with this number.
fn first_pass<E, F, D: Board<E, F>>(seat: Place<E, F, D>, number: u32) -> Pass<E, F, D>
    requires { seat.me ≡ (start_view number 1, []) }
    ensures { result ≡ fresh seat.table_id number }
{
    Pass {
        seat,
        number,
        calls: 0,
        taken_in: 0,
    }
}

/// One pass for each artist, in order.
fn deal<E: Drop, F: Drop, D: Board<E, F> + Drop>(
    alloc: Global,
    table: &Steps<E, F, D>,
    mut seat: Place<E, F, D>,
    artists: u8,
) -> Result<Vec<Pass<E, F, D>>, NoMemory>
    requires table { SitsAt seat.table_id table.now.table_id }
    requires start { seat.me ≡ (start_view 0 artists, []) }
    ensures { IfOk result (λ passes. passes.items ≡ all_fresh table.now.table_id artists) }
{
    let mut passes = Vec::new(alloc);
    for number in 0..artists {
        let next = cut(table, &mut seat);
        passes.push(first_pass(next, u32::from(number)))?;
    }
    Ok(passes)
}

impl<E, F, D: Board<E, F>> TurnLock<E, F, D> {
    /// A lock round a value with an empty history, and a pass for each of its artists, with the numbers
    /// 0 up.
    ///
    /// # Errors
    /// `NoMemory`.
    pub fn new(
        alloc: Global,
        artists: u8,
        fixed: F,
        value: D,
    ) -> Result<(TurnLock<E, F, D>, Vec<Pass<E, F, D>>), NoMemory>
    where
        E: Drop,
        F: Drop,
        D: Drop,
        requires artists { artists ≤ 16 }
        requires fixed { D.fixed value ≡ fixed }
        requires empty { D.history value ≡ [] }
        ensures artists { IfOk result (λ r. r.0.artists ≡ artists) }
        ensures fixed { IfOk result (λ r. r.0.fixed ≡ fixed) }
        ensures passes { IfOk result (λ r. r.1.items ≡ all_fresh r.0.id artists) }
    {
        let mut slots = Vec::new(alloc);
        slots.push(Some(value))?;
        let terms = Terms {
            artists: u64::from(artists),
            fixed,
        };
        let Ok((table, seat)) = Table::new(alloc, &[0], slots, &terms) else {
            return Err(NoMemory);
        };
        let passes = deal(alloc, &table.shared, seat, artists)?;
        Ok((TurnLock { table }, passes))
    }

    /// Offers the entry to the value at the pass's turn. It waits for that.
    ///
    /// # Errors
    /// `NoMemory`; nothing was added.
    pub fn send<R: Wait>(
        &self,
        rt: &R,
        pass: &mut Pass<E, F, D>,
        entry: &E,
    ) -> Result<Sent, NoMemory>
        requires lock { pass.old.lock ≡ self.now.id }
        requires own { Has pass.old.numbers (D.artist entry.now) }
        requires few { pass.old.calls < 1048576 }
        ensures turn { PassHasTurn D.artist D.lawful pass.old entry.now result pass.new.seen }
        ensures pass { pass.new ≡ called pass.old (added entry.now result) pass.new.seen }
    {
        let answer = call(rt, &self.table.shared, &mut pass.seat, entry);
        pass.calls += 1;
        answer
    }

    /// The pass takes in another one.
    pub fn back(&self, pass: &mut Pass<E, F, D>, other: Pass<E, F, D>)
        requires lock { (pass.old.lock ≡ self.now.id) × (other.lock ≡ self.now.id) }
        ensures { pass.new ≡ joined pass.old other }
    {
        let Pass {
            seat,
            number: _,
            calls,
            taken_in,
        } = other;
        merge(&self.table.shared, &mut pass.seat, seat);
        count(&self.table.shared, &mut pass.seat);
        pass.calls += calls;
        pass.taken_in += taken_in + 1;
    }

    /// The value, at the end. The pass has taken in all others.
    pub fn close(self, pass: Pass<E, F, D>) -> D
        requires lock { pass.lock ≡ self.id }
        requires all { length pass.numbers ≡ self.artists }
        ensures seen { D.history result ≡ pass.seen }
        ensures made { (k : ℕ) → made_by D.artist k pass.seen ≡ made_by D.artist k pass.made }
        ensures legal { IsLegal D.lawful pass.seen }
        ensures fixed { D.fixed result ≡ self.fixed }
    {
        let TurnLock { table } = self;
        let Pass {
            seat,
            number: _,
            calls: _,
            taken_in: _,
        } = pass;
        let mut closed = table.close_with(seat);
        let slot = closed.take(0);
        closed.free();
        let Some(value) = slot else { unreachable!() };
        value
    }
}
