//! The properties that the rules of a card name (RFC 6350, section 6).

ghost use Rattle.std.specs.Prelude.{◌≡◌};
ghost use Rattle.std.specs.Str.{str_eq_ignore_ascii_case};
ghost use Rattle.book_cards.specs.Properties.{property_of};

/// What the name of a line stands for; the rules say nothing of the others.
#[derive(Clone, Copy, PartialEq, Eq)]
pub(crate) enum Property {
    Begin,
    End,
    Version,
    FormattedName,
    Uid,
    Kind,
    Member,
    Other,
}

/// Whether the texts are equal but for the case of ASCII letters.
pub(crate) fn is_word(text: &str, word: &str) -> bool
    ensures { result ≡ str_eq_ignore_ascii_case text.now word.now }
{
    text.eq_ignore_ascii_case(word)
}

/// The property of this name.
pub(crate) fn property_named(name: &str) -> Property
    ensures { result ≡ property_of name.now }
{
    if is_word(name, "BEGIN") {
        Property::Begin
    } else if is_word(name, "END") {
        Property::End
    } else if is_word(name, "VERSION") {
        Property::Version
    } else if is_word(name, "FN") {
        Property::FormattedName
    } else if is_word(name, "UID") {
        Property::Uid
    } else if is_word(name, "KIND") {
        Property::Kind
    } else if is_word(name, "MEMBER") {
        Property::Member
    } else {
        Property::Other
    }
}
