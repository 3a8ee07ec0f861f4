// The settings that a session is told at its start (PostgreSQL's documentation, "ParameterStatus"): what ParameterStatus and SHOW tell is made of
// these.

/// A setting that a session is told at its start by ParameterStatus: the same for each session.
#[derive(Clone, Copy)]
pub struct Parameter {
    /// The name, which SHOW takes too.
    pub name: &'static str,
    /// The value.
    pub value: &'static str,
}

/// The version of PostgreSQL whose protocol is spoken.
pub const SERVER_VERSION: Parameter = Parameter {
    name: "server_version",
    value: "14.0",
};

/// The encoding of the server's texts.
pub const SERVER_ENCODING: Parameter = Parameter {
    name: "server_encoding",
    value: "UTF8",
};

/// The encoding of the client's texts.
pub const CLIENT_ENCODING: Parameter = Parameter {
    name: "client_encoding",
    value: "UTF8",
};

/// How dates are written.
pub const DATE_STYLE: Parameter = Parameter {
    name: "DateStyle",
    value: "ISO, MDY",
};

/// Whether times are integers.
pub const INTEGER_DATETIMES: Parameter = Parameter {
    name: "integer_datetimes",
    value: "on",
};

/// Whether a backslash in a string is a plain character.
pub const STANDARD_CONFORMING_STRINGS: Parameter = Parameter {
    name: "standard_conforming_strings",
    value: "on",
};
