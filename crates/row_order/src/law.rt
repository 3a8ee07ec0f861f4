// The order in which the rows of a result stand.
ghost use Rattle.row_order.specs.Order.{Sorts, OnlyOneSorts};

/// The rows in order are the same rows, ascending by the terms of ORDER BY, and rows that tie stand as they stood. No other
/// list is that.
pub fn order_is_right()
    ensures sorts { Sorts }
    ensures one { OnlyOneSorts }
{}
