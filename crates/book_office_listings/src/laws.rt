//! What the definitions imply.

ghost use Rattle.book_office_listings.specs.Laws.{GrantedResourcesAreTold, ListingsExist, ListingsHaveOneAnswer, RulingsExist};
ghost use Rattle.book_office_listings.specs.Laws.{TextsAreToldWhereGranted, UnreadResourcesStayUnseen, ViewsHaveWhatMayBeRead};
ghost use Rattle.book_office_listings.specs.Laws.{MembersToldAreDirect, PrivilegesToldAreGranted};
ghost use Rattle.book_office_listings.specs.Rulings.{RulingsAreTheGrants};

/// Contents stay unseen: of two Offices that differ only in what may not be read, a listing tells the same (own
/// profile).
pub fn unread_resources_stay_unseen()
    ensures { UnreadResourcesStayUnseen }
{}

/// A listing is determined by the Office, the caller's circle and what is asked.
pub fn listings_have_one_answer()
    ensures { ListingsHaveOneAnswer }
{}

/// Where the needed leaves are granted at the resource itself, the first response tells it.
pub fn granted_resources_are_told()
    ensures { GrantedResourcesAreTold }
{}

/// What the values of properties are: the leaves of `current-user-privilege-set` are those that are granted, and the
/// paths of `group-member-set` are the direct members, each once, in byte order.
pub fn values_tell_grants_and_members()
    ensures privileges { PrivilegesToldAreGranted }
    ensures members { MembersToldAreDirect }
{}

/// The leaves that rulings grant are those that are granted (RFC 3744, sections 5.4 and 6).
pub fn rulings_are_the_grants()
    ensures { RulingsAreTheGrants }
{}

/// The view of a book has exactly the cards at which `read` is granted, and a text is told by a leaf exactly where that
/// leaf is granted at its card (RFC 3744, section 6).
pub fn views_have_what_may_be_read()
    ensures views { ViewsHaveWhatMayBeRead }
    ensures texts { TextsAreToldWhereGranted }
{}

/// A resource that is there has a listing, and rulings.
pub fn listings_exist()
    ensures listings { ListingsExist }
    ensures rulings { RulingsExist }
{}
