// The words that a session draws.
ghost use Rattle.std.specs.Prelude.{ℕ};

/// What gives the words that choose among the values of a read.
pub trait Words {
    /// Relates the value before a call, the word, and the value after.
    ghost gives: { Self → ℕ → Self → Type 0 };

    /// The next word.
    fn next(&mut self) -> u32
        ensures { gives self.old result self.new };
}
