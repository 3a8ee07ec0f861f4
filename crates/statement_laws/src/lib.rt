//! Laws of the courses of statements, over their definitions: that a statement reads first and asks for no cell twice, what picture it
//! is so shown and that it comes to its meaning over it, that each run of it has one picture, and that it keeps rows whole. There is no
//! code here.
#![tactic(auto)]

mod courses;
mod keeping;
mod pictures;
mod runs;
mod whole;

pub use courses::{statement_reads_first, statement_touches_once};
pub use keeping::statement_keeps_rows;
pub use pictures::{change_answers_picture, insert_answers_rows, select_answers_picture};
pub use runs::{run_has_picture, statement_scans_once};
pub use whole::rows_are_whole;
