// The settings that SET and SHOW name.
ghost use Rattle.std.specs.Prelude.{◌≡◌, ◌≤◌, length, Some, None, IfSome, IsNone};
ghost use Rattle.std.specs.Str.{bytes_eq};
ghost use Rattle.block_machine.specs.Settings.{IsShown, is_own, level_word, level_named, chosen_level, parameter_value, value_of};

use crate::parameters::{
    CLIENT_ENCODING, DATE_STYLE, INTEGER_DATETIMES, SERVER_ENCODING, SERVER_VERSION,
    STANDARD_CONFORMING_STRINGS,
};
use cell_base::{Level, Text};

/// The setting whose value is the number of events of the history.
pub const HISTORY: &str = "monkey.history";

/// The setting whose value is the level of the session's next transactions.
pub const LEVEL: &str = "monkey.level";

/// Whether a setting is one of the server's own.
pub fn is_own(name: &str) -> bool
    ensures { result ≡ is_own name.now }
{
    name.starts_with("monkey.")
}

// Whether two texts are the same.
fn is_same(text: &str, other: &str) -> bool
    ensures { result ≡ bytes_eq text.now other.now }
{
    text == other
}

// The word of a level.
fn level_word(level: Level) -> &'static str
    ensures word { result.now ≡ level_word level }
    ensures fits { length result.now ≤ 64 }
{
    match level {
        Level::Rc => "rc",
        Level::Ra => "ra",
        Level::Cc => "cc",
    }
}

/// The level with this word.
pub fn level_named(word: &str) -> Option<Level>
    ensures { result ≡ level_named word.now }
{
    if is_same(word, "rc") {
        Some(Level::Rc)
    } else if is_same(word, "ra") {
        Some(Level::Ra)
    } else if is_same(word, "cc") {
        Some(Level::Cc)
    } else {
        None
    }
}

/// The level that the values of a SET choose, given the level of the server.
pub fn chosen_level(served: Level, values: &[Text]) -> Option<Level>
    ensures { result ≡ chosen_level served values.now }
{
    match values {
        [value] => {
            if is_same(value.as_str(), "default") {
                Some(served)
            } else {
                level_named(value.as_str())
            }
        }
        _ => None,
    }
}

// The value of a setting that a session is told at its start by ParameterStatus.
fn parameter_value(name: &str) -> Option<&'static str>
    ensures some { IfSome result (λ value. parameter_value name.now ≡ Some value.now) }
    ensures none { IsNone result → parameter_value name.now ≡ None }
    ensures shown { IfSome result (λ value. IsShown name.now × (length value.now ≤ 64)) }
{
    if is_same(name, SERVER_VERSION.name) {
        Some(SERVER_VERSION.value)
    } else if is_same(name, SERVER_ENCODING.name) {
        Some(SERVER_ENCODING.value)
    } else if is_same(name, CLIENT_ENCODING.name) {
        Some(CLIENT_ENCODING.value)
    } else if is_same(name, DATE_STYLE.name) || is_same(name, "datestyle") {
        Some(DATE_STYLE.value)
    } else if is_same(name, INTEGER_DATETIMES.name) {
        Some(INTEGER_DATETIMES.value)
    } else if is_same(name, STANDARD_CONFORMING_STRINGS.name) {
        Some(STANDARD_CONFORMING_STRINGS.value)
    } else {
        None
    }
}

/// The value of a setting but for the history's, given the session's level; none where there is no such setting.
pub fn value_of(level: Level, name: &str) -> Option<&'static str>
    ensures some { IfSome result (λ value. value_of level name.now ≡ Some value.now) }
    ensures none { IsNone result → value_of level name.now ≡ None }
    ensures shown { IfSome result (λ value. IsShown name.now × (length value.now ≤ 64)) }
{
    if is_same(name, LEVEL) {
        Some(level_word(level))
    } else {
        parameter_value(name)
    }
}
