//! What a package brings to places and takes from them.
ghost use Rattle.std.specs.Prelude.{◌≡◌, ℕ, ◌+◌, ◌<◌, ◌≤◌, IsTrue, ◌&&◌, pos, ◌+ℤ◌, is_some, IfSome, if◌then◌else◌, nat_eq, nat_lt, slice_index_or};
ghost use Rattle.movement.specs.Limits.{most_moved};
ghost use Rattle.netting.specs.Sizes.{most_places};
ghost use Rattle.netting.specs.Places.{leg_takes, leg_brings, takes, brings};
ghost use Rattle.netting.specs.Positions.{position as position_of};
ghost use Rattle.netting.specs.Limits.{fits, fitting as fitting_of};
ghost use Rattle.netting.specs.Tables.{Kept, Posted, IsNear, IsRoomy, LegFits, most_legs, signed as signed_of};

use crate::leg::Leg;
use crate::limits::{MOVEMENTS, fitting};
use crate::places::PLACES;
use movement::{Movement, Side};

// An amount as it stands, or taken back.
fn signed(amount: u64, inside: bool) -> i64
    requires { amount ≤ most_moved }
    ensures { result ≡ signed_of inside (pos amount) }
{
    if inside {
        amount as i64
    } else {
        -(amount as i64)
    }
}

// Raises one amount.
fn shift(amounts: &mut [i64; PLACES], place: usize, by: i64)
    requires place { place < most_places }
    requires room { IsNear (most_legs + 2) (slice_index_or amounts.old place (pos 0)) }
    requires small { IsNear 1 by }
    ensures { (p : ℕ) → slice_index_or amounts.new p (pos 0)
        ≡ slice_index_or amounts.old p (pos 0) +ℤ (if nat_eq p place then by else pos 0) }
{
    amounts[place] += by;
}

// Takes a leg's amount from one place and brings it to the other, or back where it leaves.
// Stays: the new form is no plainer: each of the three that ask for room asks for another width of
// it.
fn post_leg(amounts: &mut [i64; PLACES], leg: Leg, inside: bool)
    requires fits { LegFits leg }
    requires room { IsRoomy (most_legs + 1) amounts.old }
    ensures { Posted amounts.old amounts.new inside (leg_brings leg) (leg_takes leg) }
{
    shift(amounts, leg.from, signed(leg.amount, !inside));
    shift(amounts, leg.to, signed(leg.amount, inside));
}

/// Posts both legs of a movement, as it enters the package or leaves it.
pub fn post(amounts: &mut [i64; PLACES], m: &Movement, inside: bool)
    requires fits { IsTrue (fits m.now) }
    requires room { IsRoomy most_legs amounts.old }
    ensures { Posted amounts.old amounts.new inside (brings m.now) (takes m.now) }
{
    post_leg(amounts, Leg::of(m, Side::Securities), inside);
    post_leg(amounts, Leg::of(m, Side::Cash), inside);
}

/// What each place has after a package is posted, by what it had before.
pub fn posted(
    before: [i64; PLACES],
    movements: &[Movement],
    marks: &[bool; MOVEMENTS],
) -> [i64; PLACES]
    requires room { IsRoomy 0 before }
    requires fitting { IsTrue (fitting_of movements.now) }
    ensures { Kept (λ p. slice_index_or before p (pos 0)) movements.now marks.now result }
{
    let mut amounts = before;
    for (m, inside) in movements.iter().zip(marks) {
        if *inside {
            post(&mut amounts, m, true);
        }
    }
    amounts
}

/// The position of a place under a package. None past the last place, or where the movements cannot
/// be netted.
// Stays: a rule of the project: callers give marks beside movements, in the form of `settling`.
pub fn position(movements: &[Movement], marks: &[bool; MOVEMENTS], place: usize) -> Option<i64>
    ensures answered { is_some result ≡ (nat_lt place most_places && fitting_of movements.now) }
    ensures value { IfSome result (λ z. z ≡ position_of movements.now marks.now place) }
{
    if place < PLACES && fitting(movements) {
        Some(posted([0; PLACES], movements, marks)[place])
    } else {
        None
    }
}
