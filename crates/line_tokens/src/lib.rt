// The tokens of a line of a history file (docs/HISTORY-FILE.md, 'Words of a line'). A place in the line is a number, since the column
// of an error is one, and stands beside the line in each function.
#![tactic(auto)]

ghost use Rattle.std.specs.Prelude.{◌≡◌, ◌≤◌, ◌-◌, length};
ghost use Rattle.std.specs.List.{prefix_len};
ghost use Rattle.line_tokens.specs.Tokens.{class_of, is_of, run_from, span_from, class_number, is_of_number, span_by, byte_at, place_behind};
ghost use Rattle.line_tokens.specs.Tokens.{value_of, single_kind, number_token, word_token, token_at};

pub mod words;

pub use words::Word;
use words::word_of;

// What a byte is: a space, a tab or a carriage return; a digit; a letter; #; one of the three marks; any other byte from 33 to
// 126; a byte that is no text.
#[derive(Clone, Copy, Debug, PartialEq, Eq)]
pub enum Class {
    Blank,
    Digit,
    Letter,
    End,
    Left,
    Right,
    Dash,
    Other,
    Foreign,
}

// What a token is: a number, a count, or one of too many digits; a word, if it is one that is known; the end of the line; or a byte alone.
#[derive(Clone, Copy, Debug, PartialEq, Eq)]
pub enum Kind {
    Number(u64),
    Count(u64),
    Long,
    Word(Option<Word>),
    End,
    Left,
    Right,
    Dash,
    Other,
    Foreign,
}

// What stands at a place of a line, its first byte and the one behind it.
#[derive(Clone, Copy, Debug, PartialEq, Eq)]
pub struct Token {
    pub kind: Kind,
    pub from: usize,
    pub to: usize,
}

// The class of a byte.
#[tactic(auto, unfolding(crate::specs::Tokens::class_of))]
pub fn class_of(b: u8) -> Class
    ensures { result ≡ class_of b }
{
    match b {
        b' ' | b'\t' | b'\r' => Class::Blank,
        b'0'..=b'9' => Class::Digit,
        b'a'..=b'z' | b'A'..=b'Z' => Class::Letter,
        b'#' => Class::End,
        b'(' => Class::Left,
        b')' => Class::Right,
        b'-' => Class::Dash,
        b'!'..=b'~' => Class::Other,
        _ => Class::Foreign,
    }
}

// Whether a byte is of a class.
#[tactic(auto, unfolding(crate::specs::Tokens::is_of))]
fn is_of(b: u8, class: Class) -> bool
    ensures { result ≡ is_of class b }
{
    class_of(b) == class
}

// How many bytes of a class stand at the start.
fn leading(bytes: &[u8], class: Class) -> usize
    ensures { result ≡ prefix_len (is_of class) bytes.now }
{
    bytes.iter().take_while(|b| is_of(**b, class)).count()
}

// The bytes of a class that stand one behind the other from a place on.
#[tactic(auto, unfolding(crate::specs::Tokens::run_from))]
fn run(line: &[u8], from: usize, class: Class) -> &[u8]
    ensures bytes { result.now ≡ run_from class line.now from }
    ensures within { length result.now ≤ length line.now - from }
{
    let rest = line.get(from..).unwrap_or(&[]);
    &rest[..leading(rest, class)]
}

impl Class {
    // The first place from `from` on whose byte is not of the class, or the end of the line.
    #[tactic(auto, unfolding(crate::specs::Tokens::span_from))]
    pub fn span(self, line: &[u8], from: usize) -> usize
        ensures { result ≡ span_from self line.now from }
    {
        from + run(line, from, self).len()
    }

    // Its number: the place among the classes, from 0.
    #[tactic(auto, unfolding(crate::specs::Tokens::class_number))]
    pub fn number(self) -> u32
        ensures { result ≡ class_number self }
    {
        self as u32
    }
}

// Whether a byte is of the class with a number.
#[tactic(auto, unfolding(crate::specs::Tokens::is_of_number))]
fn is_of_number(b: u8, class: u32) -> bool
    ensures { result ≡ is_of_number class b }
{
    class_of(b).number() == class
}

// How many bytes of the class with a number stand at the start.
fn leading_by(bytes: &[u8], class: u32) -> usize
    ensures count { result ≡ prefix_len (is_of_number class) bytes.now }
    ensures within { result ≤ length bytes.now }
{
    bytes
        .iter()
        .take_while(|b| is_of_number(**b, class))
        .count()
}

// The first place from `from` on whose byte is not of the class with this number, or the end of the line: `from` itself for a
// number that no class has.
#[tactic(auto, unfolding(crate::specs::Tokens::span_by))]
pub fn span(line: &[u8], from: usize, class: u32) -> usize
    ensures { result ≡ span_by class line.now from }
{
    let rest = line.get(from..).unwrap_or(&[]);
    from + leading_by(rest, class)
}

// A byte of the line; past its end the byte that ends it, which is what stands for none in the definition as well.
#[tactic(auto, unfolding(crate::specs::Tokens::byte_at))]
fn byte_at(line: &[u8], i: usize) -> u8
    ensures { result ≡ byte_at line.now i }
{
    line.get(i).copied().unwrap_or(b'#')
}

// The place behind a byte of the line; at its end the end.
#[tactic(auto, unfolding(crate::specs::Tokens::place_behind))]
fn behind(line: &[u8], i: usize) -> usize
    ensures { result ≡ place_behind line.now i }
{
    if i < line.len() { i + 1 } else { i }
}

// The value of digits. It stops growing where no number of 18 digits comes, so that it fits.
#[tactic(auto, unfolding(crate::specs::Tokens::value_of))]
fn value_of(digits: &[u8]) -> u64
    ensures { result ≡ value_of digits.now }
{
    digits.iter().fold(
        0u64,
        |v, b| v.min(500000000000000000) * 10 + u64::from(*b % 16),
    )
}

// A number or a count, whose first digit stands at `from`.
#[tactic(auto, unfolding(crate::specs::Tokens::number_token))]
fn number_token(line: &[u8], from: usize) -> Token
    ensures { result ≡ number_token line.now from }
{
    let digits = run(line, from, Class::Digit);
    let to = from + digits.len();
    let star = byte_at(line, to) == b'*';
    let kind = if 18 < digits.len() {
        Kind::Long
    } else if star {
        Kind::Count(value_of(digits))
    } else {
        Kind::Number(value_of(digits))
    };
    let to = if star { behind(line, to) } else { to };
    Token { kind, from, to }
}

// A word, whose first letter stands at `from`.
#[tactic(auto, unfolding(crate::specs::Tokens::word_token))]
fn word_token(line: &[u8], from: usize) -> Token
    ensures { result ≡ word_token line.now from }
{
    let letters = run(line, from, Class::Letter);
    let kind = Kind::Word(word_of(letters));
    let to = from + letters.len();
    Token { kind, from, to }
}

// What a byte is that is a token alone.
#[tactic(auto, unfolding(crate::specs::Tokens::single_kind))]
fn single_kind(class: Class) -> Kind
    ensures { result ≡ single_kind class }
{
    match class {
        Class::End => Kind::End,
        Class::Left => Kind::Left,
        Class::Right => Kind::Right,
        Class::Dash => Kind::Dash,
        Class::Foreign => Kind::Foreign,
        _ => Kind::Other,
    }
}

// The token at a place of the line, behind blanks.
#[tactic(auto, unfolding(crate::specs::Tokens::token_by, crate::specs::Tokens::token_from, crate::specs::Tokens::token_at))]
pub fn token_at(line: &[u8], at: usize) -> Token
    ensures { result ≡ token_at line.now at }
{
    let from = Class::Blank.span(line, at);
    match class_of(byte_at(line, from)) {
        Class::Digit => number_token(line, from),
        Class::Letter => word_token(line, from),
        class => {
            let to = behind(line, from);
            Token {
                kind: single_kind(class),
                from,
                to,
            }
        }
    }
}
