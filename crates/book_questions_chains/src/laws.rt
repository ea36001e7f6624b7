//! What the definitions imply.

ghost use Rattle.book_questions_chains.specs.Chains.{ChainsAreTold};

/// An entry that applies to a known caller since the caller belongs to a principal has a chain there, a shortest one (RFC
/// 3744, section 5.5.1).
pub fn chains_are_told()
    ensures { ChainsAreTold }
{}
