//! What the definitions imply.

ghost use Rattle.book_desk_control.specs.Laws.{CutsAlike, SentInOrder};

/// What bytes ask is the same however they are cut: a request that is whole is that request and no other, whatever bytes follow
/// it, and bytes that are refused stay refused.
pub fn requests_are_cut_anywhere()
    ensures { CutsAlike }
{}

/// A reply is sent whole and in order, by whoever sends what is next until nothing is.
pub fn replies_are_sent_in_order()
    ensures { SentInOrder }
{}
