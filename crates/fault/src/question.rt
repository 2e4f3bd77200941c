//! A question that a call asks: a no is its answer.
ghost use Rattle.std.specs.Prelude.{◌≡◌, [], ◌∷◌};
ghost use Rattle.fault.specs.Questions.{ask as ask_of, passes};

use crate::fault::Fault;

/// Refuses by the fault unless what is asked holds.
pub fn ask(holds: bool, fault: Fault) -> Result<(), Fault>
    ensures { result ≡ passes (ask_of holds fault ∷ []) }
{
    if holds { Ok(()) } else { Err(fault) }
}
