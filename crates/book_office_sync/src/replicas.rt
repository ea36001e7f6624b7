//! Copies of what a caller may read of a book.

ghost use Rattle.std.specs.Prelude.{◌≡◌, IfOk, OnOk, OnErr};
ghost use Rattle.std.specs.FinMap as map;
ghost use Rattle.std.specs.Option.{option_copied};
ghost use Rattle.book_office_sync.specs.Copies.{patched, patch};

use crate::messages::{Item, Report, Seen};
use book_lists::Name;
use book_office_values::NameMap;
use std::alloc::{AllocError, Global};
use std::marker::Model;

/// A copy of what a caller may read of a book (RFC 6578, section 3), seen as a finite map from names to cards.
#[derive(Debug, Drop)]
pub struct Replica {
    cards: NameMap<Seen>,
}

impl Model for Replica {
    ghost use Rattle.std.specs.FinMap as map;
    ghost use Rattle.std.specs.Coded.{coded_ℕ, coded_list};
    ghost use Rattle.book_office_values.specs.Names.{NamesTo};
    ghost use Rattle.book_office_sync.specs.declared.messages.Seen.{Seen};
    ghost use Rattle.book_office_sync.specs.contracts.messages.Seen as seen_type;

    ghost Value = { NamesTo Seen };

    ghost coded = { map.code (coded_list coded_ℕ) seen_type.the_row.coded };

    ghost view = { λ r. r.cards };
}

impl Replica {
    /// A copy with no cards. Takes no memory.
    pub fn new(alloc: Global) -> Replica
        ensures { result ≡ map.empty }
    {
        Replica {
            cards: NameMap::new(alloc),
        }
    }

    /// How many cards there are. Takes no memory.
    pub fn len(&self) -> usize
        ensures { result ≡ map.len self.now }
    {
        self.cards.len()
    }

    /// The card of a name, if it is there. Takes no memory.
    pub fn get(&self, name: &Name) -> Option<&Seen>
        ensures { option_copied result ≡ map.get self.now name.now }
    {
        self.cards.get(name)
    }

    /// The same cards once more. An error is want of memory.
    fn copied(&self) -> Result<Replica, AllocError>
        ensures { IfOk result (λ copy. copy ≡ self.now) }
    {
        let cards = self.cards.clone()?;
        Ok(Replica { cards })
    }

    /// Takes over what an item says. An error is want of memory.
    fn apply_item(&mut self, item: &Item) -> Result<(), AllocError>
        ensures { OnOk result (self.new ≡ patched self.old item.now item.now.found) }
    {
        match &item.found {
            Some(found) => {
                let name = item.name.clone()?;
                let label = found.label.clone()?;
                let text = found.text.clone()?;
                let number = item.number;
                let _before = self.cards.insert(
                    name,
                    Seen {
                        number,
                        label,
                        text,
                    },
                )?;
            }
            None => {
                let _before = self.cards.remove(&item.name);
            }
        }
        Ok(())
    }

    /// Takes over what each item says, in their order. An error is want of memory.
    fn apply_items(&mut self, items: &[Item]) -> Result<(), AllocError>
        ensures { OnOk result (self.new ≡ patch self.old items.now) }
    {
        for item in items {
            self.apply_item(item)?;
        }
        Ok(())
    }
}

/// Takes over what a report says (RFC 6578, section 3.5): each card that it tells comes in the place of the one with
/// that name, and each name that it tells as removed goes. An error is want of memory; the copy is then as it was. The
/// cost grows with the cards of the copy.
pub fn apply_report(replica: &mut Replica, report: &Report) -> Result<(), AllocError>
    ensures ok { OnOk result (replica.new ≡ patch replica.old report.now.items) }
    ensures err { OnErr result (replica.new ≡ replica.old) }
{
    let mut next = replica.copied()?;
    next.apply_items(report.items.as_slice())?;
    *replica = next;
    Ok(())
}
