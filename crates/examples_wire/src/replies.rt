//! Bodies that no request of the examples has as its reply.

use crate::checks::check_bytes;
use crate::texts::body_bytes;
use book_lists::Name;
use book_machine::{Content, NamedCard};
use book_office_sync::{Item, Report, Token};
use book_office_values::Items;
use std::alloc::Global;
use std::process::Abort;

fn name(rt: &impl Abort, alloc: Global, text: &str) -> Name {
    let name = Name::parse(alloc, text).expect(rt, "memory");
    name.expect(rt, "a name")
}

/// A report after which changes remain, with a name that is removed.
fn cut_report(rt: &impl Abort, alloc: Global) -> Report {
    let mut items = Items::new(alloc);
    let removed = Item {
        name: name(rt, alloc, "f.vcf"),
        number: 2,
        found: None,
    };
    items.push(removed).expect(rt, "memory");
    let token = Token {
        book: name(rt, alloc, "sales"),
        epoch: 2,
        number: 2,
    };
    Report {
        items,
        truncated: true,
        token,
    }
}

#[test]
fn nothing_is_listed_and_changes_remain(rt: HostRuntime) {
    let alloc = rt.alloc();
    let listing = Content::Listing(Items::new(alloc));
    let text = body_bytes(&rt, alloc, &listing);
    drop(listing);
    check_bytes(&rt, text.as_slice(), "{\"responses\":[]}".as_bytes());
    let report = Content::Synced(cut_report(&rt, alloc));
    let text = body_bytes(&rt, alloc, &report);
    drop(report);
    check_bytes(
        &rt,
        text.as_slice(),
        "{\"responses\":[{\"href\":\"/books/sales/f.vcf\",\"status\":404},{\"href\":\"/books/sales\",\"status\":507}],\"sync-token\":\"data:,sales/2/2\"}".as_bytes(),
    );
}

/// A card of which no name is told, since its text is none.
fn unnamed(rt: &impl Abort, alloc: Global) -> Items<NamedCard> {
    let mut names = Items::new(alloc);
    let card = NamedCard {
        name: name(rt, alloc, "x.vcf"),
        formatted: None,
    };
    names.push(card).expect(rt, "memory");
    names
}

#[test]
fn no_name_is_null(rt: HostRuntime) {
    let alloc = rt.alloc();
    let names = Content::Names(name(&rt, alloc, "sales"), Items::new(alloc));
    let text = body_bytes(&rt, alloc, &names);
    drop(names);
    check_bytes(&rt, text.as_slice(), "{\"names\":[]}".as_bytes());
    let names = Content::Names(name(&rt, alloc, "sales"), unnamed(&rt, alloc));
    let text = body_bytes(&rt, alloc, &names);
    drop(names);
    check_bytes(
        &rt,
        text.as_slice(),
        "{\"names\":[{\"fn\":null,\"href\":\"/books/sales/x.vcf\"}]}".as_bytes(),
    );
}
