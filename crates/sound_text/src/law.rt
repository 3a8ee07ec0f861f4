// What holds of the tokens and the tables of a text.
ghost use Rattle.sound_text.specs.Laws.{BuiltIsSound, TokensArePlain};

/// The tokens of a text without a zero byte are plain.
pub fn tokens_are_plain()
    ensures { TokensArePlain }
{}

/// A table that is built from a CREATE TABLE of a text without a zero byte is sound.
pub fn built_is_sound()
    ensures { BuiltIsSound }
{}
