//! The lines of a text, one after another.

ghost use Rattle.std.specs.Prelude.{◌≡◌, ◌==◌, ◌<◌, length, position, IfSome};
ghost use Rattle.sim_script.specs.Scripts as spec;

/// The place of the first line feed.
fn feed_in(text: &[u8]) -> Option<usize>
    ensures { result ≡ position (λ b. b == 10) text.now }
{
    text.iter().position(|&b| b == b'\n')
}

/// The first line, without its line feed, and the bytes after it. An empty text has no line.
pub fn next_line(text: &[u8]) -> Option<(&[u8], &[u8])>
    ensures lines { spec.lines_in text.now ≡ spec.line_and_lines result }
    ensures shorter { IfSome result (λ found. length found.1.now < length text.now) }
{
    if text.is_empty() {
        return None;
    }
    match feed_in(text) {
        Some(at) => Some((&text[..at], &text[at + 1..])),
        None => Some((text, &text[text.len()..])),
    }
}
