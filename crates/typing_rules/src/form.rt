// What an expression comes to while it is typed.
use cell_base::Text;
use sql_tree::TypedExpr;

/// What an expression comes to: it has a type, or it is a quoted literal or a NULL, which takes the type that its place gives it.
#[derive(Debug, Drop)]
pub enum Form {
    Typed(TypedExpr),
    /// A quoted literal.
    Quoted(Text),
    /// The word NULL.
    Null,
}
