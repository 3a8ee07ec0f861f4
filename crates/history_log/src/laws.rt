// Laws of the text.
ghost use Rattle.std.specs.Prelude.{◌≡◌, ◌∷◌, ℕ, List};
ghost use Rattle.cell_base.specs.declared.cell.Cell.{Cell};
ghost use Rattle.cell_base.specs.declared.value.Value.{Value};
ghost use Rattle.history_core.specs.declared.event.Event.{Event};
ghost use Rattle.history_log.specs.declared.trace.Trace.{Trace};
ghost use Rattle.history_log.specs.declared.version.Version.{Version};
ghost use Rattle.history_log.specs.Cut.{cut_at};
ghost use Rattle.history_log.specs.Spelling.{cell_word, value_word, keyword_word, keyword_of, fields, event_line};
ghost use Rattle.history_log.specs.Reading.{FitsCell, FitsValue, FitsEvent};
ghost use Rattle.history_log.specs.Log.{IsLog};

/// Each word is of one cell and of one value, and a line shows its words.
pub fn one_word()
    ensures cells { (a b : Cell) → FitsCell a → FitsCell b → cell_word a ≡ cell_word b → a ≡ b }
    ensures values { (a b : Value) → FitsValue a → FitsValue b → value_word a ≡ value_word b → a ≡ b }
    ensures lines { (v : Version) (event : Event) → FitsEvent event → cut_at 32 (event_line v event) ≡ keyword_word (keyword_of event) ∷ fields v event }
{}

/// One text is of one history, in one version.
pub fn one_trace()
    ensures { (v w : Version) (t u : Trace) (bytes : List ℕ) → IsLog v t bytes → IsLog w u bytes → (v ≡ w) × (t ≡ u) }
{}
