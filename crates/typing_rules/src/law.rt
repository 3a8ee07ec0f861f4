// What holds of the definitions.
ghost use Rattle.typing_rules.specs.Sound.{FlagIsSound, TypingIsSound};

/// Each typed expression is well typed, and no aggregate stands in one that is of one row.
pub fn typing_is_sound()
    ensures { TypingIsSound }
{}

/// Each typed condition is well typed and boolean, and no aggregate stands in it.
pub fn flag_is_sound()
    ensures { FlagIsSound }
{}
