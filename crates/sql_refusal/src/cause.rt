// Why a list is refused.

/// Why a token list that the limited grammar doesn't hold is refused.
#[derive(Clone, Copy, Debug, PartialEq, Eq)]
pub enum Cause {
    /// More than 256 pieces with a token, or an INSERT with more than 999 commas outside of parentheses.
    TooMany,
    /// More than 66 parentheses open at once, or an expression that is spelled too deep.
    TooDeep,
    /// What PostgreSQL reads and this server doesn't support.
    Unsupported,
    /// All else.
    Syntax,
}
