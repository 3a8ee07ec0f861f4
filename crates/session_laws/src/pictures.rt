// What holds of the definitions.
ghost use Rattle.session_laws.specs.PictureLaws.{EachStatementHasOnePicture, ServedStatementsHavePictures, SessionHasTranscript};

use history_book::Words;

/// What a session says and asks by its record has a transcript: each call of a cell that was answered is a step of a statement of
/// the client, and after each statement that ran to its end it was told what the statement came to.
pub fn session_has_transcript()
    ensures { SessionHasTranscript }
{}

/// Where a session's record is valid, whatever the words of its reads are drawn from, and each event of the history at its end fits
/// what came before it, each statement of the transcript ran over one picture.
pub fn each_statement_has_one_picture<W: Words>()
    ensures { EachStatementHasOnePicture W.gives }
{}

/// So did each statement of a session that was served over a link.
pub fn served_statements_have_pictures<W: Words>()
    ensures { ServedStatementsHavePictures W.gives }
{}
