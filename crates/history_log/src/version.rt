// The versions of the text.
ghost use Rattle.std.specs.Prelude.{◌≡◌, ◌∷◌, ◌++◌, [], codes};
ghost use Rattle.history_log.specs.Spelling.{version_word};

/// The version of the text of a history, which its first line names.
#[derive(Clone, Copy, Debug, PartialEq, Eq)]
pub enum Version {
    /// Each transaction has the level that the head names, and no row was there from the start.
    One,
    /// Each transaction has a level of its own, and no row was there from the start.
    Two,
    /// As version 2, with the rows that were there from the start.
    Three,
}

impl Version {
    /// What a head begins with, up to the blank before its level.
    pub fn start(self) -> &'static [u8]
        ensures { result.now ≡ codes "monkey-log " ++ (version_word self ++ 32 ∷ []) }
    {
        match self {
            Version::One => b"monkey-log 1 ",
            Version::Two => b"monkey-log 2 ",
            Version::Three => b"monkey-log 3 ",
        }
    }
}
