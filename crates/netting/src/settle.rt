//! Who settles of those that are tried.
ghost use Rattle.std.specs.Prelude.{◌≡◌, IsTrue, is_some, IfSome, OnSome};
ghost use Rattle.netting.specs.Rejoins.{settling as settling_of};
ghost use Rattle.netting.specs.Limits.{bounded};
ghost use Rattle.netting.specs.Theorems.{SomeTaker, StrikesEnd, NoneShort, NoneCovered, OnlyTried, HighestStruck, LowestRejoins, Balanced};

use crate::limits::{MOVEMENTS, within_limits};
use crate::package::Package;
use crate::places::PLACES;
use movement::Movement;

// Who settles, within the limits.
fn settled(
    movements: &[Movement],
    tried: &[bool; MOVEMENTS],
    amounts: &[u64; PLACES],
) -> [bool; MOVEMENTS]
    requires { IsTrue (bounded movements.now amounts.now) }
    ensures settling { result ≡ settling_of movements.now amounts.now tried.now }
    ensures some_taker { SomeTaker movements.now amounts.now }
    ensures strikes_end { StrikesEnd movements.now amounts.now }
    ensures none_short { NoneShort movements.now amounts.now result }
    ensures none_covered { NoneCovered movements.now amounts.now tried.now result }
    ensures only_tried { OnlyTried tried.now result }
    ensures highest_struck { HighestStruck movements.now amounts.now }
    ensures lowest_rejoins { LowestRejoins movements.now amounts.now tried.now }
    ensures balanced { Balanced movements.now result }
{
    let mut package = Package::new(movements, amounts, tried);
    package.strike_all();
    package.rejoin_all();
    package.marks()
}

/// Who settles of the movements that are tried, given the amounts of all places. None where these
/// are not within the limits.
// Stays: a rule of the project: nothing here may want memory, so marks and amounts are arrays of
// fixed size, by movement and by place, and callers give them so.
pub fn settling(
    movements: &[Movement],
    tried: &[bool; MOVEMENTS],
    amounts: &[u64; PLACES],
) -> Option<[bool; MOVEMENTS]>
    ensures answered { is_some result ≡ bounded movements.now amounts.now }
    ensures settling { IfSome result (λ w. w ≡ settling_of movements.now amounts.now tried.now) }
    ensures some_taker { OnSome result (SomeTaker movements.now amounts.now) }
    ensures strikes_end { OnSome result (StrikesEnd movements.now amounts.now) }
    ensures none_short { IfSome result (λ w. NoneShort movements.now amounts.now w) }
    ensures none_covered { IfSome result (λ w. NoneCovered movements.now amounts.now tried.now w) }
    ensures only_tried { IfSome result (λ w. OnlyTried tried.now w) }
    ensures highest_struck { OnSome result (HighestStruck movements.now amounts.now) }
    ensures lowest_rejoins { OnSome result (LowestRejoins movements.now amounts.now tried.now) }
    ensures balanced { IfSome result (λ w. Balanced movements.now w) }
{
    if within_limits(movements, amounts) {
        Some(settled(movements, tried, amounts))
    } else {
        None
    }
}
