//! A package: the movements of a netting, of which those that are marked are inside. Two steps
//! decide who settles: strikes while a place is short, then rejoins.
ghost use Rattle.std.specs.Prelude.{◌≡◌, ℕ, ◌+◌, ◌<◌, ◌≤◌, ◌↔◌, IsTrue, not, length, pos, slice_index, slice_index_or};
ghost use Rattle.register.specs.Holdings.{limit};
ghost use Rattle.movement.specs.Limits.{most_movements};
ghost use Rattle.netting.specs.Sizes.{most_places};
ghost use Rattle.netting.specs.Search.{FindsFirst, FindsLast};
ghost use Rattle.netting.specs.Places.{only_takes as only_takes_from, takes, brings};
ghost use Rattle.netting.specs.Positions.{in_package};
ghost use Rattle.netting.specs.Rejoins.{struck, leg_covered, covered};
ghost use Rattle.netting.specs.Limits.{fits, bounded};
ghost use Rattle.netting.specs.Tables.{LegFits};
ghost use Rattle.netting.specs.Held.{Held, marking, amount_after, is_short, no_place_is_short, is_taker, next_struck, can_rejoin_with, next_rejoined, IsSafe, with_strikes, with_rejoins};

use crate::leg::Leg;
use crate::limits::MOVEMENTS;
use crate::places::PLACES;
use crate::positions::{post, posted};
use movement::{Movement, Side};
use std::marker::Model;

/// The movements, the amounts of all places, who is tried and who is inside, with what places have
/// after posting those.
// Stays: a rule of the project: nothing here may want memory, so marks and amounts are arrays of
// fixed size, by movement and by place, and callers give them so.
#[derive(Drop)]
pub struct Package<'a> {
    movements: &'a [Movement],
    // what places had before; only contracts read it
    amounts: &'a [u64; PLACES],
    tried: &'a [bool; MOVEMENTS],
    marks: [bool; MOVEMENTS],
    after_posting: [i64; PLACES],
}

impl<'a> Model for Package<'a> {
    ghost use Rattle.netting.specs.Held.{Held};

    ghost Value = { Held };

    ghost use Rattle.netting.specs.Package.{held, Holds};

    ghost view = { held };

    ghost invariant = { Holds };
}

impl<'a> Package<'a> {
    /// The package of all that are tried.
    pub fn new(
        movements: &'a [Movement],
        amounts: &'a [u64; PLACES],
        tried: &'a [bool; MOVEMENTS],
    ) -> Package<'a>
        requires { IsTrue (bounded movements.now amounts.now) }
        ensures { result ≡ record {
          movements = movements.now;
          amounts = amounts.now;
          tried = tried.now;
          marks = tried.now;
        } }
    {
        Package {
            movements,
            amounts,
            tried,
            marks: *tried,
            after_posting: posted(as_signed(amounts), movements, tried),
        }
    }

    /// Who is inside.
    pub fn marks(&self) -> [bool; MOVEMENTS]
        ensures { result ≡ self.now.marks }
    {
        self.marks
    }

    // The amount of a place after posting.
    fn amount_after(&self, place: usize) -> i64
        requires { place < most_places }
        ensures { result ≡ amount_after self.now place }
    {
        self.after_posting[place]
    }

    // The first short place.
    fn first_short(&self) -> Option<usize>
        ensures { FindsFirst most_places (is_short self.now) result }
    {
        self.after_posting.iter().position(|amount| *amount < 0)
    }

    // The last of the package that takes from a place without bringing to it.
    fn last_taker(&self, place: usize) -> Option<usize>
        ensures { FindsLast (length self.now.movements) (is_taker self.now place) result }
    {
        // Stays: tried, and the proof did not close, neither with `find` over these numbers, nor
        // with `rposition` over the movements beside their marks.
        for i in (0..self.movements.len()).rev() {
            if self.marks[i] && only_takes(&self.movements[i], place) {
                return Some(i);
            }
        }
        None
    }

    // Who is struck next, for the first short place.
    fn next_to_strike(&self) -> Option<usize>
        ensures { result ≡ next_struck self.now }
    {
        let place = self.first_short()?;
        self.last_taker(place)
    }

    // Whether a movement was tried and is not inside any more.
    fn was_struck(&self, i: usize) -> bool
        requires { i < most_movements }
        ensures { result ≡ struck self.now.tried self.now.marks i }
    {
        self.tried[i] && !self.marks[i]
    }

    // Whether the account that a leg leaves holds the amount, or the leg enters the same account.
    fn covers(&self, leg: Leg) -> bool
        requires { LegFits leg }
        ensures { result ≡ leg_covered (amount_after self.now) leg }
    {
        leg.from == leg.to || leg.amount as i64 <= self.amount_after(leg.from)
    }

    // Whether both legs of a movement are covered.
    fn covers_both(&self, m: &Movement) -> bool
        requires { IsTrue (fits m.now) }
        ensures { result ≡ covered (amount_after self.now) m.now }
    {
        self.covers(Leg::of(m, Side::Securities)) && self.covers(Leg::of(m, Side::Cash))
    }

    // Whether a movement was struck and can rejoin with no place short.
    fn can_rejoin(&self, i: usize) -> bool
        requires below { i < length self.now.movements }
        requires safe { IsTrue (no_place_is_short self.now) }
        ensures { result ≡ can_rejoin_with self.now i }
    {
        let movements = self.movements;
        self.was_struck(i) && self.covers_both(&movements[i])
    }

    // The lowest of the struck that can rejoin with no place short.
    fn next_to_rejoin(&self) -> Option<usize>
        requires { IsTrue (no_place_is_short self.now) }
        ensures { result ≡ next_rejoined self.now }
    {
        (0..self.movements.len()).find(|&i| self.can_rejoin(i))
    }

    // Takes a movement in or out.
    fn set(&mut self, i: usize, inside: bool)
        requires below { i < length self.old.movements }
        requires other { in_package self.old.marks i ≡ not inside }
        ensures { self.new ≡ marking self.old i inside }
    {
        let movements = self.movements;
        self.marks[i] = inside;
        post(&mut self.after_posting, &movements[i], inside);
    }

    /// Step 1: while a place is short, the last that takes from the first such place is struck.
    pub fn strike_all(&mut self)
        ensures { self.new ≡ with_strikes self.old }
    {
        while let Some(i) = self.next_to_strike() {
            self.set(i, false);
        }
    }

    /// Step 2: the lowest of the struck that can rejoin with no place short does, until none can.
    pub fn rejoin_all(&mut self)
        requires { IsSafe self.old }
        ensures { self.new ≡ with_rejoins self.old }
    {
        while let Some(i) = self.next_to_rejoin() {
            self.set(i, true);
        }
    }
}

// The amounts as they may be posted to.
fn as_signed(amounts: &[u64; PLACES]) -> [i64; PLACES]
    requires { (p : ℕ) → p < most_places → slice_index amounts.now p ≤ limit }
    ensures { (p : ℕ) → p < most_places →
        slice_index_or result p (pos 0) ≡ pos (slice_index amounts.now p) }
{
    // Stays: tried, and the proof did not close: `map` asks that each amount fits the cast.
    let mut signed = [0; PLACES];
    for (place, amount) in amounts.iter().enumerate() {
        signed[place] = *amount as i64;
    }
    signed
}

// Stays: tried, and the proof did not close, with one function that asks `any` and `all` of legs.
// Whether a movement takes from a place.
fn takes_from(m: &Movement, place: usize) -> bool
    ensures { IsTrue result ↔ (0 < takes m.now place) }
{
    Leg::of(m, Side::Securities).takes(place) > 0 || Leg::of(m, Side::Cash).takes(place) > 0
}

// Whether a movement brings to a place.
fn brings_to(m: &Movement, place: usize) -> bool
    ensures { IsTrue result ↔ (0 < brings m.now place) }
{
    Leg::of(m, Side::Securities).brings(place) > 0 || Leg::of(m, Side::Cash).brings(place) > 0
}

// Whether a movement takes from a place without bringing to it.
fn only_takes(m: &Movement, place: usize) -> bool
    ensures { result ≡ only_takes_from m.now place }
{
    takes_from(m, place) && !brings_to(m, place)
}
