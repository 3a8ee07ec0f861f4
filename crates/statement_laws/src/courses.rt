// What holds of the definitions.
ghost use Rattle.statement_laws.specs.Courses.{StatementReadsFirst, StatementTouchesOnce};

/// A statement asks for cells of the tables that there are, and then it only writes, cells of these tables, and values that a
/// cell may hold.
pub fn statement_reads_first()
    ensures { StatementReadsFirst }
{}

/// A typed statement asks for no cell twice, where each scan lists a key once.
pub fn statement_touches_once()
    ensures { StatementTouchesOnce }
{}
