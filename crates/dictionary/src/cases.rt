ghost use Rattle.dictionary.specs.Cases.{MergeCases};

/// The worked cases of specs/Cases.antt hold.
pub fn merge_cases()
    ensures { MergeCases }
{}
