// What holds of the definitions.
ghost use Rattle.statement_laws.specs.RunLaws.{RunHasPicture, StatementScansOnce};

/// A run of a typed statement, or the front of one, in which each scan lists a key once has a picture of which all its answers are.
/// Where it came to its end, what it asked, wrote and came to is the statement's meaning over that picture.
pub fn run_has_picture()
    ensures { RunHasPicture }
{}

/// A statement asks for the keys of no table twice.
pub fn statement_scans_once()
    ensures { StatementScansOnce }
{}
