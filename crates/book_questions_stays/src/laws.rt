//! What the definitions imply.

ghost use Rattle.book_questions_stays.specs.Laws.{WhatStaysIsLeft};

/// An adoption (own profile) leaves as they are: each resource that the policy does not name, with its owner and its
/// label; the own list of each resource for which the policy has no own entries; each card; and the direct members of
/// each group that the policy does not have.
pub fn what_stays_is_left()
    ensures { WhatStaysIsLeft }
{}
