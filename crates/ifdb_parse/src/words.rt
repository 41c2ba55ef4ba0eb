// Reserved words. The text of each is in one table, that of `Lexeme::word`.
ghost use Rattle.std.specs.Prelude.{◌≡◌, length};
ghost use Rattle.std.specs.Str.{str_eq_ignore_ascii_case};
ghost use Rattle.ifdb_syntax.specs.Spelling.{word_text};
ghost use Rattle.ifdb_parse.specs.Lexemes as spec;

use ifdb_syntax::Lexeme;

/// The reserved word that a text spells, in any case. It is compared with the words of its length alone, at most eleven.
pub(crate) fn reserved(text: &[u8]) -> Option<Lexeme>
    ensures { result ≡ spec.reserved text.now }
{
    match text.len() {
        2 => of_two(text),
        3 => of_three(text),
        4 => of_four(text),
        5 => of_five(text),
        6 => of_six(text),
        7 => of_seven(text),
        8 => of_eight(text),
        9 => of_nine(text),
        10 => of_ten(text),
        13 => of_thirteen(text),
        _ => None,
    }
}

/// Whether a text spells a word, in any case.
fn spells(text: &[u8], word: &Lexeme) -> bool
    ensures { result ≡ str_eq_ignore_ascii_case text.now (word_text word.now) }
{
    text.eq_ignore_ascii_case(word.word().as_bytes())
}

/// The reserved word of two letters that a text spells.
#[tactic(auto, using(crate::proofs::ReservedWords::of_two))]
fn of_two(text: &[u8]) -> Option<Lexeme>
    requires { length text.now ≡ 2 }
    ensures { result ≡ spec.reserved text.now }
{
    if spells(text, &Lexeme::As) {
        return Some(Lexeme::As);
    }
    if spells(text, &Lexeme::By) {
        return Some(Lexeme::By);
    }
    if spells(text, &Lexeme::In) {
        return Some(Lexeme::In);
    }
    if spells(text, &Lexeme::Is) {
        return Some(Lexeme::Is);
    }
    if spells(text, &Lexeme::Of) {
        return Some(Lexeme::Of);
    }
    if spells(text, &Lexeme::Or) {
        return Some(Lexeme::Or);
    }
    if spells(text, &Lexeme::To) {
        return Some(Lexeme::To);
    }
    None
}

/// The reserved word of three letters that a text spells.
#[tactic(auto, using(crate::proofs::ReservedWords::of_three))]
fn of_three(text: &[u8]) -> Option<Lexeme>
    requires { length text.now ≡ 3 }
    ensures { result ≡ spec.reserved text.now }
{
    if spells(text, &Lexeme::And) {
        return Some(Lexeme::And);
    }
    if spells(text, &Lexeme::Asc) {
        return Some(Lexeme::Asc);
    }
    if spells(text, &Lexeme::Bye) {
        return Some(Lexeme::Bye);
    }
    if spells(text, &Lexeme::Int) {
        return Some(Lexeme::Int);
    }
    if spells(text, &Lexeme::Key) {
        return Some(Lexeme::Key);
    }
    if spells(text, &Lexeme::Max) {
        return Some(Lexeme::Max);
    }
    if spells(text, &Lexeme::Min) {
        return Some(Lexeme::Min);
    }
    if spells(text, &Lexeme::Not) {
        return Some(Lexeme::Not);
    }
    if spells(text, &Lexeme::Set) {
        return Some(Lexeme::Set);
    }
    if spells(text, &Lexeme::Sum) {
        return Some(Lexeme::Sum);
    }
    if spells(text, &Lexeme::Tag) {
        return Some(Lexeme::Tag);
    }
    None
}

/// The reserved word of four letters that a text spells.
#[tactic(auto, using(crate::proofs::ReservedWords::of_four))]
fn of_four(text: &[u8]) -> Option<Lexeme>
    requires { length text.now ≡ 4 }
    ensures { result ≡ spec.reserved text.now }
{
    if spells(text, &Lexeme::Call) {
        return Some(Lexeme::Call);
    }
    if spells(text, &Lexeme::Desc) {
        return Some(Lexeme::Desc);
    }
    if spells(text, &Lexeme::From) {
        return Some(Lexeme::From);
    }
    if spells(text, &Lexeme::Into) {
        return Some(Lexeme::Into);
    }
    if spells(text, &Lexeme::Null) {
        return Some(Lexeme::Null);
    }
    if spells(text, &Lexeme::Show) {
        return Some(Lexeme::Show);
    }
    if spells(text, &Lexeme::Text) {
        return Some(Lexeme::Text);
    }
    if spells(text, &Lexeme::View) {
        return Some(Lexeme::View);
    }
    if spells(text, &Lexeme::With) {
        return Some(Lexeme::With);
    }
    None
}

/// The reserved word of five letters that a text spells.
#[tactic(auto, using(crate::proofs::ReservedWords::of_five))]
fn of_five(text: &[u8]) -> Option<Lexeme>
    requires { length text.now ≡ 5 }
    ensures { result ≡ spec.reserved text.now }
{
    if spells(text, &Lexeme::Begin) {
        return Some(Lexeme::Begin);
    }
    if spells(text, &Lexeme::Count) {
        return Some(Lexeme::Count);
    }
    if spells(text, &Lexeme::Grant) {
        return Some(Lexeme::Grant);
    }
    if spells(text, &Lexeme::Group) {
        return Some(Lexeme::Group);
    }
    if spells(text, &Lexeme::Hello) {
        return Some(Lexeme::Hello);
    }
    if spells(text, &Lexeme::Label) {
        return Some(Lexeme::Label);
    }
    if spells(text, &Lexeme::Order) {
        return Some(Lexeme::Order);
    }
    if spells(text, &Lexeme::Table) {
        return Some(Lexeme::Table);
    }
    if spells(text, &Lexeme::Where) {
        return Some(Lexeme::Where);
    }
    None
}

/// The reserved word of six letters that a text spells.
#[tactic(auto, using(crate::proofs::ReservedWords::of_six))]
fn of_six(text: &[u8]) -> Option<Lexeme>
    requires { length text.now ≡ 6 }
    ensures { result ≡ spec.reserved text.now }
{
    if spells(text, &Lexeme::Commit) {
        return Some(Lexeme::Commit);
    }
    if spells(text, &Lexeme::Create) {
        return Some(Lexeme::Create);
    }
    if spells(text, &Lexeme::Delete) {
        return Some(Lexeme::Delete);
    }
    if spells(text, &Lexeme::Insert) {
        return Some(Lexeme::Insert);
    }
    if spells(text, &Lexeme::Revoke) {
        return Some(Lexeme::Revoke);
    }
    if spells(text, &Lexeme::Select) {
        return Some(Lexeme::Select);
    }
    if spells(text, &Lexeme::Update) {
        return Some(Lexeme::Update);
    }
    if spells(text, &Lexeme::Values) {
        return Some(Lexeme::Values);
    }
    None
}

/// The reserved word of seven letters that a text spells.
#[tactic(auto, using(crate::proofs::ReservedWords::of_seven))]
fn of_seven(text: &[u8]) -> Option<Lexeme>
    requires { length text.now ≡ 7 }
    ensures { result ≡ spec.reserved text.now }
{
    if spells(text, &Lexeme::Closure) {
        return Some(Lexeme::Closure);
    }
    if spells(text, &Lexeme::Foreign) {
        return Some(Lexeme::Foreign);
    }
    if spells(text, &Lexeme::Integer) {
        return Some(Lexeme::Integer);
    }
    if spells(text, &Lexeme::Primary) {
        return Some(Lexeme::Primary);
    }
    None
}

/// The reserved word of eight letters that a text spells.
#[tactic(auto, using(crate::proofs::ReservedWords::of_eight))]
fn of_eight(text: &[u8]) -> Option<Lexeme>
    requires { length text.now ≡ 8 }
    ensures { result ≡ spec.reserved text.now }
{
    if spells(text, &Lexeme::Compound) {
        return Some(Lexeme::Compound);
    }
    if spells(text, &Lexeme::Rollback) {
        return Some(Lexeme::Rollback);
    }
    None
}

/// The reserved word of nine letters that a text spells.
#[tactic(auto, using(crate::proofs::ReservedWords::of_nine))]
fn of_nine(text: &[u8]) -> Option<Lexeme>
    requires { length text.now ≡ 9 }
    ensures { result ≡ spec.reserved text.now }
{
    if spells(text, &Lexeme::Clearance) {
        return Some(Lexeme::Clearance);
    }
    if spells(text, &Lexeme::Principal) {
        return Some(Lexeme::Principal);
    }
    None
}

/// The reserved word of ten letters that a text spells.
#[tactic(auto, using(crate::proofs::ReservedWords::of_ten))]
fn of_ten(text: &[u8]) -> Option<Lexeme>
    requires { length text.now ≡ 10 }
    ensures { result ≡ spec.reserved text.now }
{
    if spells(text, &Lexeme::References) {
        return Some(Lexeme::References);
    }
    None
}

/// The reserved word of thirteen letters that a text spells.
#[tactic(auto, using(crate::proofs::ReservedWords::of_thirteen))]
fn of_thirteen(text: &[u8]) -> Option<Lexeme>
    requires { length text.now ≡ 13 }
    ensures { result ≡ spec.reserved text.now }
{
    if spells(text, &Lexeme::Declassifying) {
        return Some(Lexeme::Declassifying);
    }
    None
}
