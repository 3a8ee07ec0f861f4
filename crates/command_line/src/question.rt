// Words that ask about the program itself: for help, or for its version.
ghost use Rattle.std.specs.Prelude.{◌≡◌, ◌≢◌, ◌∷◌, [], IfSome, IsNone, true, false, codes};
ghost use Rattle.clap.specs.Words.{Text as Bytes};
ghost use Rattle.command_line.specs.declared.question.Topic.{Topic as On};
ghost use Rattle.command_line.specs.Commands.{IsHelp, IsVersion};

use crate::arguments::{Name, name_of};
use cell_base::Text;

/// What help is about.
#[derive(Clone, Copy, Debug, PartialEq, Eq)]
pub enum Topic {
    /// The program with all its commands.
    Program,
    /// One command.
    Command(Name),
}

// The one word that the words are.
fn only(words: &[Text]) -> Option<&str>
    ensures some { IfSome result (λ word. words.now ≡ word.now ∷ []) }
    ensures none { IsNone result → (word : Bytes) → words.now ≢ word ∷ [] }
{
    let (first, rest) = words.split_first()?;
    if rest.is_empty() {
        Some(first.as_str())
    } else {
        None
    }
}

// Whether the words are just this one.
fn are(words: &[Text], word: &str) -> bool
    ensures yes { result ≡ true → words.now ≡ word.now ∷ [] }
    ensures no { result ≡ false → words.now ≢ word.now ∷ [] }
{
    match only(words) {
        Some(one) => one == word,
        None => false,
    }
}

// The command whose help the words ask for.
fn command_of(args: &[Text]) -> Option<Name>
    ensures some { IfSome result (λ name. IsHelp args.now (Topic.Command name)) }
    ensures none { IsNone result → (name : Name) → ¬ (IsHelp args.now (Topic.Command name)) }
{
    let (name, words) = name_of(args)?;
    if are(words, "--help") {
        Some(name)
    } else {
        None
    }
}

/// What the words ask help about.
pub fn topic_of(args: &[Text]) -> Option<Topic>
    ensures some { IfSome result (λ topic. IsHelp args.now topic) }
    ensures none { IsNone result → (topic : On) → ¬ (IsHelp args.now topic) }
{
    if are(args, "--help") || are(args, "help") {
        return Some(Topic::Program);
    }
    match command_of(args) {
        Some(name) => Some(Topic::Command(name)),
        None => None,
    }
}

/// Whether the words ask for the version.
pub fn is_version(args: &[Text]) -> bool
    ensures yes { result ≡ true → IsVersion args.now }
    ensures no { result ≡ false → ¬ (IsVersion args.now) }
{
    are(args, "--version")
}
