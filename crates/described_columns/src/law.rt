// What holds of the names of statements and of the columns of a result.
ghost use Rattle.described_columns.specs.Laws.{ColumnsAreDescribed, StatementIsDescribed, StatementsArePlain};

/// The statements of a text without a zero byte have plain names.
pub fn statements_are_plain()
    ensures { StatementsArePlain }
{}

/// Over well formed tables, the columns of a SELECT with plain names that has types can be described: there are at most 1,664 of
/// them, no name holds a zero byte, and each varchar has a limit of at most 65,536.
pub fn columns_are_described()
    ensures { ColumnsAreDescribed }
{}

/// Over sound tables, the columns of each statement with plain names that is typed as a SELECT can be described.
pub fn statement_is_described()
    ensures { StatementIsDescribed }
{}
