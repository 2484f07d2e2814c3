// The items of a text, document 02, point 3: blanks and comments are passed over, and an item is held to what is looked for.
// Text and place stay two parameters: what is answered is a place in the same text, and the definitions take the two apart.
#![tactic(auto)]

ghost use Rattle.std.specs.Prelude.{◌≡◌, ◌+◌, ◌≤◌, ◌<◌, T, eqb, length};
ghost use Rattle.lists.specs.Search.{at};
ghost use Rattle.off_rules.specs.Off.{is_off, first_from, past_digits, is_sign, past_sign, past_fraction};
ghost use Rattle.off_items.specs.Words.{is_gap, is_end, word_at};
ghost use Rattle.off_items.specs.Parting.{Past};
ghost use Rattle.off_items.specs.Reading.{read_at, To, Next, Pass};
ghost use Rattle.off_items.specs.declared.Kind.TheVariants.{Word, Whole, Decimal};

use digits::{byte, is_digit, number_at};

// What is looked for. Kept as an enum, and no closure in its place: the definitions `Next` and `Pass` name the kind.
#[derive(Clone, Copy)]
pub enum Kind {
    Word,
    Whole,
    Decimal,
}

// An item of the kind looked for: its number if it is a whole one (0 of others, which nobody reads), and the place after it.
#[derive(Clone, Copy)]
pub struct Found {
    pub value: u32,
    pub end: usize,
}

// A blank, or the # of a comment.
fn is_gap(b: u8) -> bool
    ensures { result ≡ is_gap b }
{
    matches!(b, b' ' | b'\t' | b'\r' | b'\n' | b'#')
}

// The next newline from p on, or the text's end. Kept with an index, here and in `digits_end`: by `position` a text takes a tenth longer.
fn line_end(text: &[u8], p: usize) -> usize
    requires { p ≤ length text.now }
    ensures { result ≡ first_from (λ b. eqb b 10) text.now p }
{
    for at in p..text.len() {
        if text[at] == b'\n' {
            return at;
        }
    }
    text.len()
}

// The place after the blank, or the comment, that stands at p.
fn past_gap(text: &[u8], p: usize) -> usize
    requires { (p < length text.now) × T (is_gap (at text.now p)) }
    ensures { Past text.now p result }
{
    if text[p] == b'#' {
        line_end(text, p + 1)
    } else {
        p + 1
    }
}

// Where the first item from p on begins, or the text's end. Kept with the test inside: blanks take 1.7 times as long with it beside the bound.
pub fn item_from(text: &[u8], p: usize) -> usize
    requires { p ≤ length text.now }
    ensures { To text.now p result }
{
    let mut at = p;
    while at < text.len() {
        if !is_gap(text[at]) {
            return at;
        }
        at = past_gap(text, at);
    }
    at
}

// Whether no item goes on at p.
fn is_end(text: &[u8], p: usize) -> bool
    ensures { result ≡ is_end text.now p }
{
    text.len() <= p || is_gap(text[p])
}

// The first byte from p on that is no digit.
fn digits_end(text: &[u8], p: usize) -> usize
    requires { p ≤ length text.now }
    ensures { result ≡ past_digits text.now p }
{
    for at in p..text.len() {
        if !is_digit(text[at]) {
            return at;
        }
    }
    text.len()
}

fn is_sign(b: u8) -> bool
    ensures { result ≡ is_sign b }
{
    matches!(b, b'+' | b'-')
}

// The place after a sign that stands at p; else p.
fn past_sign(text: &[u8], p: usize) -> usize
    ensures { result ≡ past_sign text.now p }
{
    if is_sign(byte(text, p)) { p + 1 } else { p }
}

// The place after a point with digits after it that stands at p; else p.
fn past_fraction(text: &[u8], p: usize) -> usize
    ensures { result ≡ past_fraction text.now p }
{
    if byte(text, p) != b'.' {
        return p;
    }
    let end = digits_end(text, p + 1);
    if end == p + 1 { p } else { end }
}

fn is_off(text: &[u8], s: usize) -> bool
    requires { s ≤ length text.now }
    ensures { result ≡ is_off (word_at text.now s) }
{
    text[s..].starts_with(b"OFF") && is_end(text, s + 3)
}

// The item that begins at s, as the word OFF; or s, where it is none.
fn word_at(text: &[u8], s: usize) -> Result<Found, usize>
    requires { s ≤ length text.now }
    ensures { result ≡ read_at Word text.now s }
{
    if !is_off(text, s) {
        return Err(s);
    }
    Ok(Found {
        value: 0,
        end: s + 3,
    })
}

// The digits that a whole number has at most.
const MAX_DIGITS: usize = 7;

// As a whole number.
fn whole_at(text: &[u8], s: usize) -> Result<Found, usize>
    requires { s ≤ length text.now }
    ensures { result ≡ read_at Whole text.now s }
{
    let number = number_at(text, s);
    let digits = number.digits;
    if digits < 1 || MAX_DIGITS < digits || !is_end(text, s + digits) {
        return Err(s);
    }
    Ok(Found {
        value: number.value,
        end: s + digits,
    })
}

// As a decimal.
fn decimal_at(text: &[u8], s: usize) -> Result<Found, usize>
    requires { s ≤ length text.now }
    ensures { result ≡ read_at Decimal text.now s }
{
    let start = past_sign(text, s);
    let point = digits_end(text, start);
    if point == start {
        return Err(s);
    }
    let end = past_fraction(text, point);
    if !is_end(text, end) {
        return Err(s);
    }
    Ok(Found { value: 0, end })
}

// The first item from p on, held to a kind; or the place of what stands there instead.
pub fn next(text: &[u8], p: usize, kind: Kind) -> Result<Found, usize>
    requires { p ≤ length text.now }
    ensures { Next kind text.now p result }
{
    let s = item_from(text, p);
    match kind {
        Kind::Word => word_at(text, s),
        Kind::Whole => whole_at(text, s),
        Kind::Decimal => decimal_at(text, s),
    }
}

// The first `count` items from p on, each held to one kind: the place after them, or that of the first of another.
pub fn pass(text: &[u8], p: usize, count: u32, kind: Kind) -> Result<usize, usize>
    requires { p ≤ length text.now }
    ensures { Pass kind text.now p count result }
{
    let mut at = p;
    for _ in 0..count {
        at = next(text, at, kind)?.end;
    }
    Ok(at)
}
