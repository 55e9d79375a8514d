//! What taking a batch that fits leaves of what is kept, as a contract.

ghost use Rattle.wef_pairs.specs.Laws.{FittingBatchesAreSafe};

/// A batch that fits what a source wrote keeps safe what is kept of it.
pub fn fitting_batches()
    ensures { FittingBatchesAreSafe }
{}
