//! Where in the text of a card the lines stand that it is asked for.

ghost use Rattle.std.specs.Prelude.{◌≡◌, ◌⊎◌, ◌+◌, None, drop, length, unwrap_or};
ghost use Rattle.book_cards.specs.Places.{noted, seen_nowhere};
ghost use Rattle.book_cards.specs.Properties.{is_formatted_name, is_member, is_uid};

use crate::property::Property;

/// At which byte the first line with each property begins; where there is none, that of the line that ends the card.
#[derive(Clone, Copy, Debug)]
pub(crate) struct Places {
    pub(crate) formatted_name: usize,
    pub(crate) uid: usize,
    pub(crate) member: usize,
}

/// The same of the lines that were passed; none where no such line was.
#[derive(Clone, Copy)]
pub(crate) struct PlacesSeen {
    formatted_name: Option<usize>,
    uid: Option<usize>,
    member: Option<usize>,
}

impl PlacesSeen {
    /// Of no lines.
    pub(crate) fn new() -> PlacesSeen
        ensures { result ≡ seen_nowhere }
    {
        PlacesSeen {
            formatted_name: None,
            uid: None,
            member: None,
        }
    }

    /// With one more line, which has the property and begins at this byte.
    pub(crate) fn with(self, property: Property, at: usize) -> PlacesSeen
        ensures { result ≡ noted self property at }
    {
        match property {
            Property::FormattedName => PlacesSeen {
                formatted_name: self.formatted_name.or(Some(at)),
                ..self
            },
            Property::Uid => PlacesSeen {
                uid: self.uid.or(Some(at)),
                ..self
            },
            Property::Member => PlacesSeen {
                member: self.member.or(Some(at)),
                ..self
            },
            Property::Begin
            | Property::End
            | Property::Version
            | Property::Kind
            | Property::Other => self,
        }
    }

    /// Of all lines, where the card ends with that at this byte.
    pub(crate) fn finish(self, end: usize) -> Places
        ensures formatted_name { result.formatted_name ≡ unwrap_or self.formatted_name end }
        ensures uid { result.uid ≡ unwrap_or self.uid end }
        ensures member { result.member ≡ unwrap_or self.member end }
    {
        Places {
            formatted_name: self.formatted_name.unwrap_or(end),
            uid: self.uid.unwrap_or(end),
            member: self.member.unwrap_or(end),
        }
    }
}

/// What follows in the text from a byte on; the whole text where no character begins there.
pub(crate) fn text_from(text: &str, at: usize) -> &str
    ensures { (result.now ≡ drop at text.now) ⊎ (result.now ≡ text.now) }
{
    match text.get(at..) {
        Some(rest) => rest,
        None => text,
    }
}
