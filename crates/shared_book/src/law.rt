// What holds of a history as it was seen earlier.
ghost use Rattle.history_core.specs.Chronicle.{Chronicle, IsLegalChronicle};
ghost use Rattle.shared_book.specs.Fronts.{IsFrontOf};

/// A front of a legal history is legal.
pub fn fronts_are_legal()
    ensures { (seen history : Chronicle) → IsFrontOf seen history → IsLegalChronicle history → IsLegalChronicle seen }
{}
