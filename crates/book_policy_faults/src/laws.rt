//! Laws of the definitions that the contract of `faults_of` cites.

ghost use Rattle.book_policy_faults.specs.Laws.{LeastIsTold, ToldAreFirst};

/// A law: the faults that are told are the first 1,000 of all.
pub fn told_are_first()
    ensures { ToldAreFirst }
{}

/// A law: no fault of all is before the least, and where there is a fault one of them is the least.
pub fn least_is_told()
    ensures { LeastIsTold }
{}
