//! What the definitions of an Office imply, stated on public functions since only what a contract names is proved.

ghost use Rattle.book_office.specs.Fitting.{PutCardFits, RemoveCardFits, CopyCardFits, MoveCardFits, AddBookFits, RemoveBookFits, SetLabelFits, SetListFits, SetMembersFits, AdoptFits};
ghost use Rattle.book_office.specs.Laws.{EpochLaw, OfficeIsItsResources};
ghost use Rattle.book_office.specs.OwnLists.{ProtectedListsStay, ProtectedEntriesStay, ProtectedDecisionsStay};
ghost use Rattle.book_office.specs.ResourceTree.{HomesAreThere, ResourcesStandInPlace, RemovedNamesAreFree, NumbersAreFromOneToTheBooks, NumbersTellNames};
ghost use Rattle.book_office.specs.Touches.{OtherBooksStay, NamesAreTouchedInTurn, TouchedNamesAloneChange, PutCardChangesOneName, RemoveCardChangesOneName, CopyCardChangesOneName, MoveAcrossChangesANameOfEach, MoveWithinChangesTwoNames, CardLabelChangesOneName, NewBookHasNoChanges, RemovedBookIsGone};

/// The epoch rises by one with each edit that changes access, and with no other.
pub fn access_changes_raise_the_epoch()
    ensures { EpochLaw }
{}

/// An edit of a sound Office fits where what it names is there, or has a valid name and is not there yet, and where the
/// Office stays within the limits (own profile) on cards, books, texts, labels, entries, members, change numbers and the
/// epoch.
pub fn edits_within_the_limits_fit()
    ensures put_card { PutCardFits }
    ensures remove_card { RemoveCardFits }
    ensures copy_card { CopyCardFits }
    ensures move_card { MoveCardFits }
    ensures add_book { AddBookFits }
    ensures remove_book { RemoveBookFits }
    ensures set_label { SetLabelFits }
    ensures set_list { SetListFits }
    ensures set_members { SetMembersFits }
    ensures adopt { AdoptFits }
{}

/// Replacing an own list (RFC 3744, section 8.1) changes no protected list at any path. So what protected entries decide
/// stays decided as it was, for every caller.
pub fn own_lists_leave_protected_entries()
    ensures lists { ProtectedListsStay }
    ensures entries { ProtectedEntriesStay }
    ensures decisions { ProtectedDecisionsStay }
{}

/// Sound Offices with equal resources at every path, equal pairs, equal numbers of removed names and equal epochs are equal.
pub fn resources_tell_the_office()
    ensures { OfficeIsItsResources }
{}

/// A name that an edit touches, and no other, gets a new last change: the next number of its book. Books that the edit does
/// not name stay as they are.
pub fn touched_names_alone_change()
    ensures in_turn { NamesAreTouchedInTurn }
    ensures alone { TouchedNamesAloneChange }
    ensures put_card { PutCardChangesOneName }
    ensures remove_card { RemoveCardChangesOneName }
    ensures copy_card { CopyCardChangesOneName }
    ensures move_across { MoveAcrossChangesANameOfEach }
    ensures move_within { MoveWithinChangesTwoNames }
    ensures set_label { CardLabelChangesOneName }
    ensures add_book { NewBookHasNoChanges }
    ensures remove_book { RemovedBookIsGone }
    ensures other_books { OtherBooksStay }
{}

/// What holds of each resource of a sound Office by where it stands (own profile): the root and the homes are there, and so
/// is what stands above a resource; each has the kind of its path; cards alone have texts; in a book no name is both mapped
/// and removed, and the numbers of its names are all different, at least 1 and at most the book's.
pub fn resources_stand_in_place()
    ensures homes { HomesAreThere }
    ensures principals { ResourcesStandInPlace }
    ensures removed { RemovedNamesAreFree }
    ensures within { NumbersAreFromOneToTheBooks }
    ensures different { NumbersTellNames }
{}
