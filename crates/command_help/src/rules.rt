// The arguments of each command, and what their texts have to say.
use cell_base::Memory;
use command_line::{Name, level_of, number, up_to, words_of};
use std::alloc::Global;

/// How an argument is given.
#[derive(Clone, Copy, Debug, PartialEq, Eq)]
pub enum Kind {
    /// By its place, which has to be there.
    Place,
    /// By its place, which may be left out.
    LastPlace,
    /// As an option that takes one text.
    Valued,
    /// As an option without a value.
    Flag,
}

/// What the text of an argument has to say.
#[derive(Clone, Copy, Debug, PartialEq, Eq)]
pub enum Rule {
    Level,
    /// Numbers with commas between them.
    Words,
    /// A number that fits 64 bits.
    Number,
    /// A number from 1 to this one.
    UpTo(u32),
    Any,
}

/// An argument of a command.
#[derive(Clone, Copy, Debug, PartialEq, Eq)]
pub struct Argument<'a> {
    /// Its name as an option, or the word that help has for its place.
    pub name: &'a str,
    pub kind: Kind,
    pub rule: Rule,
}

const PIPE: &[Argument<'static>] = &[
    Argument {
        name: "LEVEL",
        kind: Kind::Place,
        rule: Rule::Level,
    },
    Argument {
        name: "WORDS",
        kind: Kind::Place,
        rule: Rule::Words,
    },
];

const SERVE: &[Argument<'static>] = &[
    Argument {
        name: "level",
        kind: Kind::Valued,
        rule: Rule::Level,
    },
    Argument {
        name: "seed",
        kind: Kind::Valued,
        rule: Rule::Number,
    },
    Argument {
        name: "listen",
        kind: Kind::Valued,
        rule: Rule::Any,
    },
    Argument {
        name: "workers",
        kind: Kind::Valued,
        rule: Rule::UpTo(64),
    },
    Argument {
        name: "accept",
        kind: Kind::Valued,
        rule: Rule::UpTo(4096),
    },
    Argument {
        name: "setup",
        kind: Kind::Valued,
        rule: Rule::Any,
    },
    Argument {
        name: "log",
        kind: Kind::Valued,
        rule: Rule::Any,
    },
    Argument {
        name: "quiet",
        kind: Kind::Flag,
        rule: Rule::Any,
    },
];

const CHECK: &[Argument<'static>] = &[
    Argument {
        name: "PATH",
        kind: Kind::Place,
        rule: Rule::Any,
    },
    Argument {
        name: "wide",
        kind: Kind::Flag,
        rule: Rule::Any,
    },
];

const JUDGE: &[Argument<'static>] = &[Argument {
    name: "PATH",
    kind: Kind::Place,
    rule: Rule::Any,
}];

const SIM: &[Argument<'static>] = &[
    Argument {
        name: "LEVEL",
        kind: Kind::Place,
        rule: Rule::Level,
    },
    Argument {
        name: "SEED",
        kind: Kind::Place,
        rule: Rule::Number,
    },
    Argument {
        name: "SESSIONS",
        kind: Kind::Place,
        rule: Rule::UpTo(64),
    },
    Argument {
        name: "QUERIES",
        kind: Kind::Place,
        rule: Rule::UpTo(200),
    },
    Argument {
        name: "log",
        kind: Kind::Valued,
        rule: Rule::Any,
    },
];

const STOP: &[Argument<'static>] = &[Argument {
    name: "ADDRESS",
    kind: Kind::LastPlace,
    rule: Rule::Any,
}];

/// The arguments of a command: its places in their order, and its options.
pub fn arguments_of(name: Name) -> &'static [Argument<'static>] {
    match name {
        Name::Pipe => PIPE,
        Name::Serve => SERVE,
        Name::Check => CHECK,
        Name::Judge => JUDGE,
        Name::Sim => SIM,
        Name::Stop => STOP,
    }
}

/// Whether a text says what it has to.
pub fn fits(alloc: Global, rule: Rule, text: &str) -> Result<bool, Memory> {
    let fits = match rule {
        Rule::Level => level_of(text).is_some(),
        Rule::Words => words_of(alloc, text.as_bytes())?.is_some(),
        Rule::Number => number(text.as_bytes()).is_some(),
        Rule::UpTo(most) => up_to(most, text.as_bytes()).is_some(),
        Rule::Any => true,
    };
    Ok(fits)
}
