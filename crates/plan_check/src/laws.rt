//! Laws of plan texts.

ghost use Rattle.plan_check.specs.PlanReading.{OneFault, OneFile, RoundTrip};
ghost use Rattle.plan_check.specs.Verdict.{OneAnswer};

/// A text is that of one plan file at most.
pub fn one_file()
    ensures { OneFile }
{}

/// The text of a plan file is read as the file, want of memory aside.
pub fn round_trip()
    ensures { RoundTrip }
{}

/// A text that has a fault is refused by that fault, and by no other.
pub fn one_fault()
    ensures { OneFault }
{}

/// The checker answers the busiest load of a sharing that the group shows to be least, and nothing else.
pub fn one_answer()
    ensures { OneAnswer }
{}
