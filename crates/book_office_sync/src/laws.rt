//! What the definitions imply.

ghost use Rattle.book_office_sync.specs.Laws.{EditsLeadOn};
ghost use Rattle.book_office_sync.specs.Tokens.{TextsTellTokens};

/// Each edit leads to a later Office: the epoch rises, or what a caller may read of a name changes only where the name
/// takes a new number.
pub fn edits_lead_on()
    ensures { EditsLeadOn }
{}

/// Different tokens have different texts, so that a text which `Token::parse` reads is that of one token alone.
pub fn texts_tell_tokens()
    ensures { TextsTellTokens }
{}
