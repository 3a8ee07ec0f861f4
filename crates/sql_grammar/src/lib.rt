//! The grammar of SQL over marks, which are tokens without their places, with the words of the grammar told apart.
#![tactic(auto)]

ghost use Rattle.std.specs.Prelude.{◌≡◌, ℕ, List};
ghost use Rattle.sql_tree.specs.declared.expr.Expr.{Expr};
ghost use Rattle.sql_grammar.specs.declared.mark.Mark.{Mark};
ghost use Rattle.sql_tree.specs.declared.statement.Statement.{Statement};
ghost use Rattle.sql_grammar.specs.Grammar.{IsExpr};
ghost use Rattle.sql_grammar.specs.Statements.{message};
ghost use Rattle.sql_grammar.specs.Syntax.{spells};

mod mark;
mod words;

pub use mark::{Class, Constraint, Element, Keyword, Mark, Node, Sought, Word};
pub use words::marks;

/// No list of marks stands for two expressions.
pub fn one_tree()
    ensures { (most : ℕ) (ts : List Mark) (x y : Expr) → IsExpr most ts x → IsExpr most ts y → x ≡ y }
{}

/// No list of marks stands for two lists of statements.
pub fn one_message()
    ensures { (depth rows statements : ℕ) (ts : List Mark) (xs ys : List Statement) → spells (message depth rows statements) ts xs → spells (message depth rows statements) ts ys → xs ≡ ys }
{}
