// The first line of a text.
ghost use Rattle.std.specs.Prelude.{◌≡◌, ◌≢◌, ◌<◌, ◌≤◌, ◌∷◌, All, MatchOption, drop, length};
ghost use Rattle.ifdb_io.specs.Reader.{BreaksAt};
ghost use Rattle.ifdb_model.specs.Script.{lines_of};

use memchr::memchr;

/// The first line of a text that isn't empty, without its newline, and where the next one begins.
pub(crate) fn first_line(text: &[u8]) -> (&[u8], usize)
    requires some { 0 < length text.now }
    ensures lines { lines_of text.now ≡ result.0.now ∷ lines_of (drop result.1 text.now) }
    ensures on { 0 < result.1 }
    ensures within { result.1 ≤ length text.now }
{
    match newline_in(text) {
        Some(at) => (&text[..at], at + 1),
        None => (text, text.len()),
    }
}

/// The place of the first newline.
fn newline_in(text: &[u8]) -> Option<usize>
    ensures { MatchOption result (All (λ b. b ≢ 10) text.now) (λ n. BreaksAt text.now n) }
{
    memchr(b'\n', text)
}
