//! Which properties are asked for.

ghost use Rattle.std.specs.Prelude.{◌≡◌};
ghost use Rattle.book_office_listings.specs.Properties.{is_asked, is_same};

use crate::messages::Property;

/// Whether they are the same property.
fn is_same(property: Property, other: Property) -> bool
    ensures { result ≡ is_same property other }
{
    property == other
}

/// Whether a property is among those that are asked for (RFC 4918, section 9.1). Takes no memory.
pub fn is_asked(property: Property, properties: &[Property]) -> bool
    ensures { result ≡ is_asked property properties.now }
{
    for other in properties {
        if is_same(property, *other) {
            return true;
        }
    }
    false
}
