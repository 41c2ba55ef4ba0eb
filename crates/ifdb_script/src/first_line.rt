// The first line of a text.
ghost use Rattle.std.specs.Prelude.{◌≡◌, ◌==◌, ◌<◌, ◌∷◌, IfSome, length};
ghost use Rattle.std.specs.List.{position};
ghost use Rattle.ifdb_model.specs.Script.{lines_of};

/// The first line of a text that isn't empty, without its newline, and what stands behind it. In time the length of the line.
#[tactic(auto, using(crate::proofs::FirstLine::lines_at, crate::proofs::FirstLine::lines_without, std::proofs::lemmas::List::take_rest))]
pub(crate) fn first_line(text: &[u8]) -> (&[u8], &[u8])
    requires some { 0 < length text.now }
    ensures lines { lines_of text.now ≡ result.0.now ∷ lines_of result.1.now }
    ensures shorter { length result.1.now < length text.now }
{
    match newline_in(text) {
        Some(at) => (&text[..at], &text[at + 1..]),
        None => (text, &[]),
    }
}

/// The place of the first newline.
fn newline_in(text: &[u8]) -> Option<usize>
    ensures place { result ≡ position (λ b. b == 10) text.now }
    ensures bound { IfSome result (λ n. n < length text.now) }
{
    text.iter().position(|byte| *byte == b'\n')
}
