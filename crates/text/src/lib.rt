// The text that the listing program reads, document 01, "The listing program".
// Text and place stay two parameters: what is answered is a place in the same text.
#![tactic(auto)]

ghost use Rattle.std.specs.Prelude.{◌++◌, ◌≡◌, ◌+◌, ◌*◌, ◌-◌, ◌≤◌, ◌<◌, IfOk, IfErr, length, drop};
ghost use Rattle.lists.specs.Search.{tab};
ghost use Rattle.digits.specs.Digits.{run, number};
ghost use Rattle.text.specs.Form.{is_field, place, mark, first_bad_field, good_head, the_n, the_m, line_of_field, the_number};
ghost use Rattle.text.specs.Reading.{formed, parsed, list_after};

use digits::{byte, number_at};

// A mesh's n and m.
#[derive(Clone, Copy)]
pub struct Size {
    pub n: u32,
    pub m: u32,
}

// Why a text gives no mesh: its first bad line, or rows that the list has no room for.
#[derive(Clone, Copy)]
pub enum ParseError {
    Bad { line: u32 },
    Short,
}

fn number(text: &[u8], p: usize) -> u32
    ensures { result ≡ number text.now p }
{
    number_at(text, p).value
}

// The place after the field at p and its mark.
fn next(text: &[u8], p: usize) -> usize
    requires { p < 10000 }
    ensures value { result ≡ p + run text.now p + 1 }
    ensures upper_bound { result ≤ p + 9 }
{
    p + number_at(text, p).digits + 1
}

fn is_field(text: &[u8], p: usize, c: u8) -> bool
    requires { p < 10000 }
    ensures { result ≡ is_field text.now p c }
{
    let k = number_at(text, p).digits;
    1 <= k && k <= 7 && byte(text, p + k) == c
}

// The mark after field i: a newline after the last field of a line, else a comma.
#[tactic(auto, unfolding(crate::specs::Form::mark))]
fn mark(i: u32) -> u8
    ensures { result ≡ mark i }
{
    if i % 4 == 1 { b'\n' } else { b',' }
}

// The place after the first `count` fields; or the first that is not good.
fn go_over(text: &[u8], count: u32) -> Result<usize, u32>
    requires { count ≤ 802 }
    ensures good { IfOk result (λ p. (first_bad_field text.now count ≡ count) × (p ≡ place text.now count)) }
    ensures bad { IfErr result (λ i. (i ≡ first_bad_field text.now count) × (i < count)) }
{
    let mut at = 0;
    for i in 0..count {
        if !is_field(text, at, mark(i)) {
            return Err(i);
        }
        at = next(text, at);
    }
    Ok(at)
}

#[tactic(auto, unfolding(crate::specs::Form::the_n, crate::specs::Form::place))]
fn the_n(text: &[u8]) -> u32
    ensures { result ≡ the_n text.now }
{
    number(text, 0)
}

#[tactic(auto, unfolding(crate::specs::Form::the_m, crate::specs::Form::place))]
fn the_m(text: &[u8]) -> u32
    ensures { result ≡ the_m text.now }
{
    number(text, next(text, 0))
}

fn is_good_head(text: &[u8]) -> bool
    ensures { result ≡ good_head text.now }
{
    go_over(text, 2).is_ok() && the_n(text) <= 200 && the_m(text) <= 200
}

// The line of field i.
fn line_of(i: u32) -> u32
    requires { i ≤ 802 }
    ensures { result ≡ line_of_field i }
{
    (i + 2) / 4 + 1
}

// The size of a text in form; or its first bad line.
fn read_form(text: &[u8]) -> Result<Size, ParseError>
    ensures { result ≡ formed text.now }
{
    if !is_good_head(text) {
        return Err(ParseError::Bad { line: 1 });
    }
    let size = Size {
        n: the_n(text),
        m: the_m(text),
    };
    let count = 4 * size.m + 2;
    match go_over(text, count) {
        Ok(end) if end == text.len() => Ok(size),
        Ok(_) => Err(ParseError::Bad {
            line: line_of(count),
        }),
        Err(field) => Err(ParseError::Bad {
            line: line_of(field),
        }),
    }
}

// Writes the numbers of the fields after line 1 into the list.
fn read_list(text: &[u8], list: &mut [u32], count: usize)
    requires count_bound { count ≤ 800 }
    requires count_in_bounds { count ≤ length list.old }
    ensures { list.new ≡ tab count (the_number text.now) ++ drop count list.old }
{
    let mut at = next(text, next(text, 0));
    for i in 0..count {
        list[i] = number(text, at);
        at = next(text, at);
    }
}

// The mesh that a text in form gives; the list's first 4 m entries are then its rows.
pub fn parse(text: &[u8], list: &mut [u32]) -> Result<Size, ParseError>
    ensures value { result ≡ parsed text.now (length list.old) }
    ensures list_after { list.new ≡ list_after result text.now list.old }
{
    let size = read_form(text)?;
    let count = 4 * size.m as usize;
    if list.len() < count {
        return Err(ParseError::Short);
    }
    read_list(text, list, count);
    Ok(size)
}
