// Expressions with all their parentheses.
use case_lines::{Line, Shown};
use sql_tree::{Expr, Op};

/// The way in which trees are shown here.
pub struct Plain;

fn sign(op: Op) -> &'static str {
    match op {
        Op::Add => " + ",
        Op::Sub => " - ",
        Op::Mul => " * ",
        Op::Div => " / ",
        Op::Rem => " % ",
        Op::Eq => " = ",
        Op::Ne => " <> ",
        Op::Lt => " < ",
        Op::Le => " <= ",
        Op::Gt => " > ",
        Op::Ge => " >= ",
        Op::And => " AND ",
        Op::Or => " OR ",
    }
}

/// An expression that holds no other one.
fn show_leaf(line: &mut Line, e: &Expr) {
    match e {
        Expr::Int(n) => line.number(*n),
        Expr::Str(s) => {
            line.word("'");
            line.word(s.as_str());
            line.word("'");
        }
        Expr::Flag(flag) => line.word(if *flag { "TRUE" } else { "FALSE" }),
        Expr::Null => line.word("NULL"),
        Expr::Column(None, name) => line.word(name.as_str()),
        Expr::Column(Some(table), name) => {
            line.word(table.as_str());
            line.word(".");
            line.word(name.as_str());
        }
        Expr::Call(name, None) => {
            line.word(name.as_str());
            line.word("(*)");
        }
        _ => (),
    }
}

/// The expression, with all its parentheses.
#[cycle(show)]
pub fn show(line: &mut Line, e: &Expr) {
    match e {
        Expr::Call(name, Some(a)) => {
            line.word(name.as_str());
            show_between(line, "(", a.get(), ")");
        }
        Expr::Neg(a) => show_between(line, "(-", a.get(), ")"),
        Expr::Not(a) => show_between(line, "(NOT ", a.get(), ")"),
        Expr::IsNull(a, negated) => {
            let test = if *negated {
                " IS NOT NULL)"
            } else {
                " IS NULL)"
            };
            show_between(line, "(", a.get(), test);
        }
        Expr::Binary(op, a, b) => {
            show_between(line, "(", a.get(), sign(*op));
            show(line, b.get());
            line.word(")");
        }
        Expr::In(a, among, negated) => {
            let test = if *negated { " NOT IN" } else { " IN" };
            show_between(line, "(", a.get(), test);
            show_all(line, among.as_slice());
            line.word(")");
        }
        _ => show_leaf(line, e),
    }
}

#[cycle(show)]
fn show_between(line: &mut Line, before: &str, e: &Expr, after: &str) {
    line.word(before);
    show(line, e);
    line.word(after);
}

#[cycle(show)]
fn show_all(line: &mut Line, among: &[Expr]) {
    for e in among {
        line.word(" ");
        show(line, e);
    }
}

impl Shown<Plain> for Expr {
    fn push(&self, line: &mut Line) {
        show(line, self);
    }
}
