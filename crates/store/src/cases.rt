ghost use Rattle.store.specs.Cases.{Cases};

/// The worked cases of specs/Cases.antt hold.
pub fn worked_cases()
    ensures { Cases }
{}
