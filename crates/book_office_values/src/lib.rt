//! The values of which an Office is made: lists, texts, maps by name, change numbers and paths; and the Office itself.
//!
//! It stands on `book_lists`. The crate above uses that contracts see each type as a plain value: `Items` as a list, `Text`
//! as bytes, `NameMap` and `TextMap` as finite maps, `Changes` as numbers, `Path` and `Office` as themselves; and that a path's text
//! determines the path.
//!
//! Read `collections` first: `items`, `texts`, `name_maps` and `text_maps`, then `changes`, which is found by name and, through
//! `number_maps`, in order of number; then `offices`; and `paths` by itself.
#![tactic(auto)]

mod collections;
mod laws;
mod offices;
mod paths;

pub use collections::{Changes, Items, NameMap, Numbers, Text, TextMap};
pub use laws::{levels_go_up, texts_spell_one_path};
pub use offices::{Book, Office, Properties, StoredCard};
pub use paths::{Kind, Path, PathFault, push_book_path, push_card_path};
