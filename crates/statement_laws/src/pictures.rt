// What holds of the definitions.
ghost use Rattle.statement_laws.specs.PictureLaws.{ChangeAnswersPicture, InsertAnswersRows, SelectAnswersPicture};

/// A SELECT asks for its tables in order of mention, of each for its keys, and comes to its meaning over the rows that are there.
pub fn select_answers_picture()
    ensures { SelectAnswersPicture }
{}

/// An UPDATE or a DELETE asks for the keys of its table, and writes the changes of the rows that are there.
pub fn change_answers_picture()
    ensures { ChangeAnswersPicture }
{}

/// An INSERT asks for the presence of each of its keys, and where no row of them is there it writes its rows.
pub fn insert_answers_rows()
    ensures { InsertAnswersRows }
{}
