// The end of a text, found from its last byte.
ghost use Rattle.std.specs.Prelude.{◌≡◌, ◌≤◌, ◌++◌, IsTrue, IfSome, codes, length};
ghost use Rattle.right_logs.specs.Endings.{IsEnded};

/// The number of bytes of the end of a text, with the line feed before it.
const END_BYTES: usize = 5;

/// Whether this is the end of a text, with the line feed before it.
fn is_end(text: &[u8]) -> bool
    ensures { IsTrue result → text.now ≡ codes "\nend\n" }
{
    matches!(text, b"\nend\n")
}

/// Where what stands after the last line feed of a text begins.
fn last_line(text: &[u8]) -> usize
    ensures { result ≤ length text.now }
{
    match text.iter().rposition(|byte| *byte == b'\n') {
        Some(at) => at + 1,
        None => 0,
    }
}

/// What stands up to the last line feed of a text, with it, and what stands after it.
fn split_last_line(text: &[u8]) -> (&[u8], &[u8])
    ensures { text.now ≡ result.0.now ++ result.1.now }
{
    text.split_at(last_line(text))
}

/// The lines before the last but one, and that line, where the last one is the end. `None` says nothing of the text.
pub fn split_end(text: &[u8]) -> Option<(&[u8], &[u8])>
    ensures { IfSome result (λ x. IsEnded text.now x.0.now x.1.now) }
{
    if text.len() < END_BYTES {
        return None;
    }
    let (front, end) = text.split_at(text.len() - END_BYTES);
    if !is_end(end) {
        return None;
    }
    Some(split_last_line(front))
}
