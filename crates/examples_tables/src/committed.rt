//! The edits of rows, each in a transaction that is committed.

use book_tables_rows::{EntryRow, GroupRow, ListsRow, PlaceRow, ReachRow};
use sqlite::{Connection, Error, ErrorCode, MemStore};

pub(crate) fn remove_card(
    connection: &mut Connection<MemStore>,
    book_path: &str,
    card_path: &str,
    name: &str,
) -> Result<(), Error> {
    if !connection.is_autocommit() {
        return Err(Error::SqliteFailure(ErrorCode::TransactionState));
    }
    let mut transaction = connection.transaction();
    book_tables_rows::remove_card(&mut transaction, book_path, card_path, name)?;
    transaction.commit()
}

pub(crate) fn add_book(
    connection: &mut Connection<MemStore>,
    home_path: &str,
    path: &str,
    owner: Option<&str>,
) -> Result<(), Error> {
    if !connection.is_autocommit() {
        return Err(Error::SqliteFailure(ErrorCode::TransactionState));
    }
    let mut transaction = connection.transaction();
    book_tables_rows::add_book(&mut transaction, home_path, path, owner)?;
    transaction.commit()
}

pub(crate) fn put_card(
    connection: &mut Connection<MemStore>,
    book_path: &str,
    card_path: &str,
    name: &str,
    owner: Option<&str>,
    text: &str,
) -> Result<(), Error> {
    if !connection.is_autocommit() {
        return Err(Error::SqliteFailure(ErrorCode::TransactionState));
    }
    let mut transaction = connection.transaction();
    book_tables_rows::put_card(&mut transaction, book_path, card_path, name, owner, text)?;
    transaction.commit()
}

pub(crate) fn remove_book(connection: &mut Connection<MemStore>, path: &str) -> Result<(), Error> {
    if !connection.is_autocommit() {
        return Err(Error::SqliteFailure(ErrorCode::TransactionState));
    }
    let mut transaction = connection.transaction();
    book_tables_rows::remove_book(&mut transaction, path)?;
    transaction.commit()
}

pub(crate) fn label_card(
    connection: &mut Connection<MemStore>,
    book_path: &str,
    card_path: &str,
    label: &str,
) -> Result<(), Error> {
    if !connection.is_autocommit() {
        return Err(Error::SqliteFailure(ErrorCode::TransactionState));
    }
    let mut transaction = connection.transaction();
    book_tables_rows::label_card(&mut transaction, book_path, card_path, label)?;
    transaction.commit()
}

pub(crate) fn label_node(
    connection: &mut Connection<MemStore>,
    path: &str,
    label: &str,
) -> Result<(), Error> {
    if !connection.is_autocommit() {
        return Err(Error::SqliteFailure(ErrorCode::TransactionState));
    }
    let mut transaction = connection.transaction();
    book_tables_rows::label_node(&mut transaction, path, label)?;
    transaction.commit()
}

pub(crate) fn move_card(
    connection: &mut Connection<MemStore>,
    source_book: &str,
    card_path: &str,
    source_name: &str,
    target_book: &str,
    destination: &str,
    target_name: &str,
) -> Result<(), Error> {
    if !connection.is_autocommit() {
        return Err(Error::SqliteFailure(ErrorCode::TransactionState));
    }
    let mut transaction = connection.transaction();
    book_tables_rows::move_card(
        &mut transaction,
        source_book,
        card_path,
        source_name,
        target_book,
        destination,
        target_name,
    )?;
    transaction.commit()
}

pub(crate) fn copy_card(
    connection: &mut Connection<MemStore>,
    source_path: &str,
    book_path: &str,
    card_path: &str,
    name: &str,
    owner: Option<&str>,
) -> Result<(), Error> {
    if !connection.is_autocommit() {
        return Err(Error::SqliteFailure(ErrorCode::TransactionState));
    }
    let mut transaction = connection.transaction();
    book_tables_rows::copy_card(
        &mut transaction,
        source_path,
        book_path,
        card_path,
        name,
        owner,
    )?;
    transaction.commit()
}

pub(crate) fn set_list(
    connection: &mut Connection<MemStore>,
    path: &str,
    list: &[EntryRow],
) -> Result<(), Error> {
    if !connection.is_autocommit() {
        return Err(Error::SqliteFailure(ErrorCode::TransactionState));
    }
    let mut transaction = connection.transaction();
    book_tables_rows::set_list(&mut transaction, path, list)?;
    transaction.commit()
}

pub(crate) fn set_members(
    connection: &mut Connection<MemStore>,
    group: &str,
    members: &[String],
    old: &[ReachRow],
    new: &[ReachRow],
) -> Result<(), Error> {
    if !connection.is_autocommit() {
        return Err(Error::SqliteFailure(ErrorCode::TransactionState));
    }
    let mut transaction = connection.transaction();
    book_tables_rows::set_members(&mut transaction, group, members, old, new)?;
    transaction.commit()
}

pub(crate) fn adopt_rows(
    connection: &mut Connection<MemStore>,
    places: &[PlaceRow],
    lists: &[ListsRow],
    groups: &[GroupRow],
    old: &[ReachRow],
    new: &[ReachRow],
) -> Result<(), Error> {
    if !connection.is_autocommit() {
        return Err(Error::SqliteFailure(ErrorCode::TransactionState));
    }
    let mut transaction = connection.transaction();
    book_tables_rows::adopt_rows(&mut transaction, places, lists, groups, old, new)?;
    transaction.commit()
}
