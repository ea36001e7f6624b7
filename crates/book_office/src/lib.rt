//! What keeps an Office: what it has at each path, what each edit leaves, and the trait of its keepers.
//!
//! It stands on `book_office_values`, `book_policy_values` and `book_office_adopting`, whose types it names again, and
//! on the crates below them. The crate above uses that a `Keeper` stands for a sound Office: each read tells what that
//! Office has (`Reads`), and `act` leaves the edited Office or, on an error, the Office as it was (`Edits`); and that
//! edits within the limits fit.
//!
//! Read `nodes`, `edits` and `keepers` first, `lent_keepers`, by which a keeper is asked that is lent, and `rounds`, by which
//! several edits are kept by one commit; then `reads`,
//! `granting`, `changing`, `moving`, `setting` and `memory_keepers`, which keep an Office in memory; then `views` and `laws`.
#![tactic(auto)]

mod changing;
mod edits;
mod granting;
mod keepers;
mod laws;
mod lent_keepers;
mod memory_keepers;
mod moving;
mod nodes;
mod reads;
mod rounds;
mod setting;
mod views;

pub use book_office_adopting::{Adoption, adopting_twice_is_adopting_once};
pub use book_office_values::{
    Book, Changes, Items, Kind, NameMap, Numbers, Office, Path, PathFault, Properties, StoredCard,
    Text,
};
pub use book_policy_values::{
    BookPart, EntryPart, GroupPart, PersonPart, Policy, PolicyBook, PolicyEntry, PolicyTables,
};
pub use edits::Edit;
pub use keepers::{Keeper, StoreFault};
pub use laws::{
    access_changes_raise_the_epoch, edits_within_the_limits_fit, own_lists_leave_protected_entries,
    resources_stand_in_place, resources_tell_the_office, touched_names_alone_change,
};
pub use memory_keepers::MemoryKeeper;
pub use nodes::{Changed, EffectiveEntry, Level, Listed, Lists, Node};
pub use rounds::{Rounds, Work};
pub use setting::with_members;
pub use views::effective;
