// The rule that an event breaks.
ghost use Rattle.std.specs.Prelude.{◌≡◌};
ghost use Rattle.history_check.specs.Found.{breach_at};

use crate::Breach;

/// A rule that an event breaks, with what is told of it beside the number of the event. The breach itself is made of it once, where the judge
/// gives up; this is small enough to be handed on for each event.
#[derive(Clone, Copy, Debug)]
pub enum BrokenRule {
    /// The state of the session doesn't allow the event, or what it names isn't there.
    Shape,
    /// A look or a show should say this number.
    Number(u32),
    /// A scan doesn't list exactly the keys that it has to.
    Keys,
    /// A read is external where the own transaction has written the cell, or internal where it hasn't.
    Own,
    /// The source of a read doesn't write the cell.
    Source,
    /// The value isn't the one that is to be read.
    Value,
    /// The number of offered sources is 0, or above this one of the candidates.
    Count(u32),
}

/// The breach that is told of the event of the number, which breaks the rule.
pub fn breach_at(event: u32, rule: BrokenRule) -> Breach
    ensures { result ≡ breach_at event rule }
{
    match rule {
        BrokenRule::Shape => Breach::Shape { event },
        BrokenRule::Number(expected) => Breach::Number { event, expected },
        BrokenRule::Keys => Breach::Keys { event },
        BrokenRule::Own => Breach::Own { event },
        BrokenRule::Source => Breach::Source { event },
        BrokenRule::Value => Breach::Value { event },
        BrokenRule::Count(candidates) => Breach::Count { event, candidates },
    }
}
