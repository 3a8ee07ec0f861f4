// What holds of the course of every statement.
ghost use Rattle.statement_laws.specs.RowCourses.{StatementKeepsRows};

/// A typed statement keeps the rows of the tables whole. It writes a row as there only with all its fields, one right after the other,
/// and asks for the field of a row only where it was answered before that the row is there.
pub fn statement_keeps_rows()
    ensures { StatementKeepsRows }
{}
