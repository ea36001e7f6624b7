//! Laws of the definitions.

ghost use Rattle.book_dumps_restoring.specs.Laws.{BooksOfCardsStay, LinesStandInOrder, OthersStay, WantedAreTheBackups};

/// Exactly the wanted resources become the backup's, and all else stays. At each path that no wanted resource reaches
/// the same stands as before; a book of a restored card keeps all but its number and its removed names. At the path of
/// each wanted resource stand the owner, the label, the own list and the text of the backup. The lines stand in byte
/// order of their paths, each path once.
pub fn restores_change_what_is_wanted()
    ensures others { OthersStay }
    ensures books { BooksOfCardsStay }
    ensures wanted { WantedAreTheBackups }
    ensures order { LinesStandInOrder }
{}
