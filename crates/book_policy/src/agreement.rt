//! A law: the faults of a text's table, each with its place, agree with the rules of the text.

ghost use Rattle.book_policy.specs.Agreement.{ChecksAgree};

/// A law: the table of a text within the bound has no fault (`faults_of` of `book_policy_faults`) exactly where the text
/// is a policy, and else the least of its faults is the one that the text has.
pub fn checks_agree()
    ensures { ChecksAgree }
{}
