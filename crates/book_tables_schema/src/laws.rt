//! A law of rows.

ghost use Rattle.book_tables_schema.specs.Renewing.{WidenedRowsKeepLists};

/// A law: the rows of `ace` as `ace2` has them are in the same lists, in the same order.
pub fn widened_rows_keep_lists()
    ensures kept { WidenedRowsKeepLists }
{}
