//! Lists, texts and maps that a contract sees as plain values, and the numbers of changes.

mod changes;
mod items;
mod name_maps;
mod number_maps;
mod text_maps;
mod texts;

pub use changes::{Changes, Numbers};
pub use items::Items;
pub use name_maps::NameMap;
pub(crate) use number_maps::NumberMap;
pub use text_maps::TextMap;
pub use texts::Text;
