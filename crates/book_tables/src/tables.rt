//! The tables of an Office, as a keeper holds them.

ghost use Rattle.std.specs.Prelude.{◌≡◌};

use sqlite::{Alter, Connection};

/// The tables of an Office, through a connection to the store that has them. It stands for the Office of its rows.
///
/// An edit of a card doesn't depend on the size of its book. Where an edit answers an error, an open connection shows
/// the Office as it was; a connection that a fault has shut shows nothing, and the store has to be opened anew.
#[derive(Drop)]
pub struct Tables<S: Alter> {
    pub(crate) connection: Connection<S>,
    pub(crate) failures: u64,
}
