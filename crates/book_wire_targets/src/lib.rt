//! Names that the wire reads and writes: the path that a target or a destination asks for (RFC 9110, section 7.1;
//! RFC 4918, section 10.3), methods by their names, phrases of statuses (RFC 9110, sections 9 and 15).
//!
//! It stands on `book_office_values` for paths and `book_rights` for methods, and on `url`, `matchit` and `http`. The crate
//! above uses that `target_path` tells the path that a target asks for, or that it asks for none; that `method_named`
//! knows exactly the methods of the server; and that a `phrase` is short.
//!
//! Read `targets` first, with `home_routes`, which has the four paths that are always mapped; then `methods` and
//! `statuses`.
#![tactic(auto)]

mod home_routes;
mod methods;
mod statuses;
mod targets;

pub use home_routes::{Home, homes};
pub use methods::method_named;
pub use statuses::phrase;
pub use targets::{path_in, target_path};
