// Tables as text: each column with its type, `!` where it is never null and its default where that isn't null; the number of the
// key's column; and the CHECKs.
use crate::typing::expr::{push_kind, push_value};
use crate::typing::shown::WithTypes;
use case_lines::{Line, Shown, each};
use cell_base::Value;
use sql_tree::{Column, Table};

fn push_default(line: &mut Line, default: &Value) {
    match default {
        Value::Null => (),
        value => {
            line.word("=");
            push_value(line, value);
        }
    }
}

impl Shown<WithTypes> for Column {
    fn push(&self, line: &mut Line) {
        line.word(self.name.as_str());
        push_kind(line, self.kind);
        if self.not_null {
            line.word("!");
        }
        push_default(line, &self.default);
    }
}

/// The table as one line.
impl Shown<WithTypes> for Table {
    fn push(&self, line: &mut Line) {
        line.word(self.name.as_str());
        line.word(":");
        each::<WithTypes, _>(line, " ", &self.columns);
        line.word(" key ");
        line.number(i64::from(self.key));
        each::<WithTypes, _>(line, " check ", &self.checks);
    }
}
