//! The worked cases, by the definitions.
ghost use Rattle.netting.specs.Cases.{AllHold, cases};

/// In each case those settle that the table says.
pub fn cases_hold()
    ensures { AllHold cases }
{}
