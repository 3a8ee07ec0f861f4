// What the client of a setup says.
ghost use Rattle.std.specs.Prelude.{◌≤◌, ℕ, List, length};
ghost use Rattle.cell_base.specs.Texts.{HasNoZero};
ghost use Rattle.setup_client.specs.Client.{most_text};
ghost use Rattle.setup_client.specs.Spelled.{IsSpelled};

/// The bytes of the client of a text without a zero byte, which isn't too long, are a startup that names the user `setup`, the query of the text,
/// and Terminate.
pub fn client_is_spelled()
    ensures { (text : List ℕ) → HasNoZero text → length text ≤ most_text → IsSpelled text }
{}
