//! What the definitions imply.

ghost use Rattle.book_questions.specs.RulingVerdicts.{RulingsTellTheVerdict};
ghost use Rattle.book_questions.specs.Who.{WhoIsExact};
ghost use Rattle.book_questions.specs.Whys.{WhyTellsTheReply, WhyTellsTheVerdict};

/// The rulings on every leaf at a resource tell the decision on each need there (RFC 3744, section 6).
pub fn rulings_tell_the_verdict()
    ensures { RulingsTellTheVerdict }
{}

/// What `why` tells of a request is its verdict, and what `serve` answers.
pub fn why_tells_the_reply()
    ensures verdict { WhyTellsTheVerdict }
    ensures reply { WhyTellsTheReply }
{}

/// A caller is told by `who` exactly where the decision grants it the privilege (RFC 3744, section 6).
pub fn who_is_exact()
    ensures { WhoIsExact }
{}
