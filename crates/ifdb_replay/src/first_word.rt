// The first word of a line.
ghost use Rattle.std.specs.Prelude.{◌≡◌};
ghost use Rattle.ifdb_replay.specs.FirstWord.{after_blanks, first_word, only_looks};
ghost use Rattle.ifdb_lex.specs.Front.{is_word_byte};

/// Whether a line's first word is SELECT or SHOW, in any case: its longest run of ASCII letters,
/// digits and `_` behind spaces and tabs. Such a line changes nothing, and has no record.
pub fn only_looks(line: &[u8]) -> bool
    ensures { result ≡ only_looks line.now }
{
    let word = first_word(line);
    word.eq_ignore_ascii_case(b"select") || word.eq_ignore_ascii_case(b"show")
}

// The first word of a line; it may be empty.
fn first_word(line: &[u8]) -> &[u8]
    ensures { result.now ≡ first_word line.now }
{
    let text = after_blanks(line);
    let mut end = 0;
    while end < text.len() && is_word_byte(text[end]) {
        end += 1;
    }
    &text[..end]
}

// A text behind its spaces and tabs.
fn after_blanks(text: &[u8]) -> &[u8]
    ensures { result.now ≡ after_blanks text.now }
{
    let mut start = 0;
    while start < text.len() && (text[start] == b' ' || text[start] == b'\t') {
        start += 1;
    }
    &text[start..]
}

fn is_word_byte(b: u8) -> bool
    ensures { result ≡ is_word_byte b }
{
    b.is_ascii_alphanumeric() || b == b'_'
}
