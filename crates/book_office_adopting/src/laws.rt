//! What the definition of adopting implies, stated on a public function since only what a contract names is proved.

ghost use Rattle.book_office_adopting.specs.Laws.{AdoptingTwiceIsOnce, AdoptingMayChangeNothing, AdoptingRaisesTheEpoch, AdoptionNeedsNoCards, AdoptingNeedsNoCards};

/// Adopting a policy twice is adopting it once, the epoch included (own profile): the epoch rises by one where the Office
/// differs from before, and else nothing changes.
pub fn adopting_twice_is_adopting_once()
    ensures twice { AdoptingTwiceIsOnce }
    ensures unchanged { AdoptingMayChangeNothing }
    ensures changed { AdoptingRaisesTheEpoch }
{}

/// Cards and change numbers have no part in adopting a policy (own profile): whether anything changes, how many books
/// there are then, and what becomes of the rest of the Office is told by the Office without them. So a store tells it
/// without a look at its cards.
pub fn adopting_needs_no_cards()
    ensures told { AdoptionNeedsNoCards }
    ensures made { AdoptingNeedsNoCards }
{}
