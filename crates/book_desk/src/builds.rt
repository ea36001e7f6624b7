//! How the program was built.

/// Whether the program was proved, and from which commit; `make build` writes it in the copy that it proves.
pub(crate) const BUILD: &str = "unproved";
