// What the test programs share. A program reads its cases from standard input, a case to a line: the label, and then numbers, each after
// one byte that is no digit; the first such byte is a semicolon. Lines with no semicolon are headings of the cases after them; after the last
// case, the last line is the label of a case of zeros.
// What reads or prints (read_input, next_case, run_input, print_label, emit_line, emit_refusal, emit_clean, Lent::emit) promises nothing of it: no
// contract can say what a terminal gives or gets. A write that fails is passed over; what tells of it is in terminal.rt.
#![tactic(auto)]

ghost use Rattle.std.specs.Prelude.{◌≡◌, ◌*◌, ◌<◌, ◌≤◌, ◌↔◌, ◌++◌, min, length as List·length, take, drop, replicate, IsTrue, IfOk, EachIndex, slice_index, vec_len};
ghost use Rattle.cases.specs.Cases.{left_after, three};

use answer::{Answer, Refusal};
use std::alloc::{AllocError, Global};

mod terminal;
#[cfg(test)]
mod tests;

pub use terminal::{print_clean, print_line, print_refusal, read_case, run};

// How many bytes of its input a program reads at most, but for that with the longest.
pub const ROOM: usize = 8192;

// How many numbers a program takes of a case; the digits after more are digits of the last.
pub const MOST: usize = 127;

// What a work buffer holds before a call.
pub const WORK: u32 = 5;

// What the tables hold before an edit; no half-edge has this code.
const TABLE: u32 = u32::MAX;

// The points of 15 vertices: whole numbers, some that are rounded when they are added or halved, the greatest and the least.
pub const POINTS: [f64; 45] = [
    1.0,
    -2.0,
    0.1,
    4.0,
    8.5,
    0.2,
    -3.0,
    4503599627370496.0,
    0.3,
    7.0,
    4503599627370495.0,
    1e16,
    179769313486231570e291,
    1.0,
    3.0,
    179769313486231570e291,
    9007199254740992.0,
    5e-324,
    -0.0,
    5e-324,
    5e-324,
    0.0,
    15e-324,
    -5e-324,
    -0.0,
    -0.0,
    22250738585072014e-324,
    2.5,
    -1e300,
    1e-300,
    6.0,
    1e300,
    -1e-300,
    11.0,
    12.0,
    13.0,
    14.0,
    15.0,
    16.0,
    17.0,
    18.0,
    19.0,
    20.0,
    21.0,
    22.0,
];

// The number x with a digit more; x where that is too large.
fn with_digit(x: u32, digit: u8) -> u32 {
    let longer = 10 * u64::from(x) + u64::from(digit);
    u32::try_from(longer).unwrap_or(x)
}

// A number after each byte that is no digit.
fn numbers_in(alloc: Global, text: &[u8]) -> Result<Vec<u32>, AllocError>
    ensures { IfOk result (λ v. vec_len v ≤ 127) }
{
    let mut numbers = Vec::with_capacity(alloc, MOST)?;
    for b in text {
        if !b.is_ascii_digit() {
            if numbers.len() < MOST {
                numbers.push(0)?;
            }
        } else if let Some(last) = numbers.last_mut() {
            *last = with_digit(*last, b.saturating_sub(b'0'));
        }
    }
    Ok(numbers)
}

// The first bytes of standard input, at most so many.
pub fn read_input(alloc: Global, room: usize) -> Result<Vec<u8>, AllocError>
    ensures { IfOk result (λ text. vec_len text ≤ room) }
{
    let mut text = vec![in alloc; 0; room]?;
    let count = io::read_full(0, &mut text);
    text.truncate(count);
    Ok(text)
}

// The text before the first byte b, and from it on; all and nothing where there is none.
pub fn cut(text: &[u8], b: u8) -> (&[u8], &[u8])
    ensures { result.0.now ++ result.1.now ≡ text.now }
{
    let at = text.iter().position(|x| *x == b).unwrap_or(text.len());
    text.split_at(at)
}

// Prints the last line of the text.
pub fn print_label(text: &[u8]) {
    let label = text.rsplit(|b| *b == b'\n').next().unwrap_or(text);
    io::write_all(1, label);
    io::write_all(1, b"\n");
}

// Prints the label of the text's first case. The answer is the case's numbers, with zeros after them where they are fewer than `least`, and
// the text after the case.
pub fn next_case(alloc: Global, text: &[u8], least: usize) -> Result<(Vec<u32>, &[u8]), AllocError>
    ensures { IfOk result (λ r. 0 < List·length text.now → List·length r.1.now < List·length text.now) }
{
    let (label, case) = cut(text, b';');
    let (case, after) = cut(case, b'\n');
    print_label(label);
    let mut numbers = numbers_in(alloc, case)?;
    for _ in numbers.len()..least {
        numbers.push(0)?;
    }
    let (_, after) = part(after, 1);
    Ok((numbers, after))
}

// Runs each case of the first bytes of standard input on its numbers, at least so many.
pub fn run_input<F: FnMut(&[u32]) -> Result<(), AllocError>>(
    alloc: Global,
    least: usize,
    mut run_case: F,
) -> Result<(), AllocError>
    requires { F.IsAlwaysCallable run_case }
{
    let input = read_input(alloc, ROOM)?;
    let mut rest = input.as_slice();
    while !rest.is_empty() {
        let (numbers, after) = next_case(alloc, rest, least)?;
        run_case(&numbers)?;
        rest = after;
    }
    Ok(())
}

// The part of this length at the start of the numbers, or of bytes, and those after it.
pub fn part<T>(numbers: &[T], length: u32) -> (&[T], &[T])
    ensures front { result.0.now ≡ take (min (List·length numbers.now) length) numbers.now }
    ensures back { result.1.now ≡ drop (min (List·length numbers.now) length) numbers.now }
{
    numbers.split_at(numbers.len().min(length as usize))
}

// A buffer of this length, filled with x.
pub fn filled(alloc: Global, x: u32, length: u32) -> Result<Vec<u32>, AllocError>
    ensures { IfOk result (λ v. v.items ≡ replicate length x) }
{
    vec![in alloc; x; length as usize]
}

// Whether each entry is x.
pub fn is_all(a: &[u32], x: u32) -> bool
    ensures { IsTrue result ↔ EachIndex a.now (λ k. slice_index a.now k ≡ x) }
{
    a.iter().all(|y| *y == x)
}

// Whether the work buffer is as it must be after this answer: refusals 1 and 2 leave it, and else it is zero.
pub fn is_work_left(a: Answer, work: &[u32]) -> bool
    ensures { IsTrue result ↔ EachIndex work.now (λ k. slice_index work.now k ≡ left_after a) }
{
    let left = match a {
        Err(refusal) if matches!(refusal.reason.number(), 1 | 2) => WORK,
        _ => 0,
    };
    is_all(work, left)
}

// A refusal's three numbers; 0 and the two numbers of any other answer.
pub fn numbers_of(a: Answer) -> [u32; 3]
    ensures { result ≡ three a }
{
    match a {
        Ok(given) => [0, given.first, given.second],
        Err(refusal) => [refusal.reason.number(), refusal.first, refusal.second],
    }
}

// The bits of a number; one that is none has no bits of its own.
fn bits_of(x: f64) -> u64 {
    if x.is_nan() { 0 } else { x.to_bits() }
}

// The bits of points, the upper half of each number first.
pub fn halves(alloc: Global, points: &[f64]) -> Result<Vec<u32>, AllocError>
    ensures { IfOk result (λ h. vec_len h ≡ 2 * List·length points.now) }
{
    let mut halves = Vec::with_capacity(alloc, 2 * points.len())?;
    for x in points {
        let bits = bits_of(*x);
        halves.push((bits >> 32) as u32)?;
        halves.push((bits % 4294967296) as u32)?;
    }
    Ok(halves)
}

// Prints a letter and numbers as one line; nothing where a line of 1,000 bytes may be too short for them.
pub fn emit_line(letter: u8, numbers: &[u32]) {
    let mut out = [0; 1000];
    let count = print::print_line(&mut out, 0, letter, numbers);
    io::write_all(1, &out[..count]);
}

pub fn emit_refusal(refusal: Refusal) {
    emit_line(b'R', &numbers_of(Err(refusal)));
}

pub fn emit_clean(clean: bool) {
    io::write_all(1, if clean { b"clean\n" } else { b"dirty\n" });
}

// What an edit is lent, but for points and its work buffer: n and m, the list and the tables.
#[derive(Clone, PartialEq, Drop)]
pub struct Lent {
    pub size: [u32; 2],
    pub list: Vec<u32>,
    pub v2e: Vec<u32>,
    pub e2e: Vec<u32>,
    pub b2e: Vec<u32>,
}

impl Lent {
    // A copy of the list, and tables of these lengths.
    pub fn new(
        alloc: Global,
        size: [u32; 2],
        list: &[u32],
        lengths: [u32; 3],
    ) -> Result<Lent, AllocError>
        ensures copied { IfOk result (λ l. (l.size ≡ size) × (l.list.items ≡ list.now)) }
        ensures filled { IfOk result (λ l. (l.v2e.items ≡ replicate (slice_index lengths 0) TABLE)
            × (l.e2e.items ≡ replicate (slice_index lengths 1) TABLE)
            × (l.b2e.items ≡ replicate (slice_index lengths 2) TABLE)) }
    {
        let [v2e, e2e, b2e] = lengths;
        Ok(Lent {
            size,
            list: list.to_vec(alloc)?,
            v2e: filled(alloc, TABLE, v2e)?,
            e2e: filled(alloc, TABLE, e2e)?,
            b2e: filled(alloc, TABLE, b2e)?,
        })
    }

    // Prints the lines of the list and of the three tables, each to its end.
    pub fn emit(&self) {
        emit_line(b'L', &self.list);
        emit_line(b'V', &self.v2e);
        emit_line(b'E', &self.e2e);
        emit_line(b'B', &self.b2e);
    }
}
