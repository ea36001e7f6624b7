//! Laws of the definitions that the contracts cite. The calls do nothing; what each is for is its contract.

ghost use Rattle.std.specs.Prelude.{◌≡◌, ◌↔◌, ℕ, List, Some, None};
ghost use Rattle.std.specs.Str.Lines.{lines};
ghost use Rattle.book_cards.specs.TextLines.{MakeUp};
ghost use Rattle.book_cards.specs.ContentLine.{Fields, IsContentLine};
ghost use Rattle.book_cards.specs.Reading.{fields_of};
ghost use Rattle.book_cards.specs.CardText.{card_fault};
ghost use Rattle.book_cards.specs.Valid.{IsCard};
ghost use Rattle.book_cards.specs.Folding.{unfolded, Unfolds};

/// The fields that are read of a line are those of the grammar, and it has no others.
pub fn fields_are_of_the_grammar()
    ensures { (line : List ℕ) (fields : Fields) → (fields_of line ≡ Some fields)
        ↔ IsContentLine line fields }
{}

/// The texts without a fault are the cards.
pub fn faultless_texts_are_the_cards()
    ensures { (text : List ℕ) → (card_fault text ≡ None) ↔ IsCard text }
{}

/// The unfolded text is the one that the standard's relation gives, and no other.
pub fn unfolded_is_what_unfolds()
    ensures { (text whole : List ℕ) → Unfolds text whole ↔ (whole ≡ unfolded text) }
{}

/// The lines of a text are those that, each with its line end, make it up, and no others.
pub fn lines_make_up_the_text()
    ensures { (text : List ℕ) (all : List (List ℕ)) → MakeUp all text ↔ (all ≡ lines text) }
{}
