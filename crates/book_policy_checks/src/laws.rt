//! A law: what `check_policy` tells of a text and what `read_policy` answers agree.

ghost use Rattle.book_policy_checks.specs.Laws.{ReportsAgree};

/// A law: where a text has a fault (`read_policy` tells it), its report (`check_policy`) isn't that it is sound, and the
/// least fault that the report tells is that one.
pub fn reports_agree()
    ensures { ReportsAgree }
{}
