// What reads and prints through a runtime of the caller's: lines of any length with however many numbers, and the error of a read or a write that
// fails. A number stands after each character that is no digit. No contract can say what a terminal gives or gets.
ghost use Rattle.std.specs.Prelude.{◌≤◌, IfOk, IfSome, vec_len};

use super::{Lent, numbers_of, with_digit};
use answer::Refusal;
use std::alloc::{AllocError, Global};
use std::io;

// The number of these digits; 0 where there are none.
fn number_of(digits: &str) -> u32 {
    let bytes = digits.as_bytes().iter();
    bytes.fold(0, |x, b| with_digit(x, b.saturating_sub(b'0')))
}

// The numbers of a text, however many: one more than its characters that are no digit.
fn all_numbers_in(alloc: Global, text: &str) -> Result<Vec<u32>, AllocError> {
    text.split(|c: char| !c.is_ascii_digit())
        .map(number_of)
        .collect(alloc)
}

// Prints the label of a case and answers its numbers, with zeros after them where they are fewer than `least`; none for a heading.
pub fn read_case(
    rt: &(impl Print + AllocGlobal),
    line: &str,
    least: usize,
) -> io::Result<Option<Vec<u32>>>
    ensures { IfOk result (λ case. IfSome case (λ numbers. least ≤ vec_len numbers)) }
{
    let Some((label, text)) = line.split_once(';') else {
        return Ok(None);
    };
    rt.println(label)?;
    let mut numbers = all_numbers_in(rt.alloc(), text)?;
    for _ in numbers.len()..least {
        numbers.push(0)?;
    }
    Ok(Some(numbers))
}

// Runs each case of the runtime's input on its numbers, at least so many.
pub fn run<R: Input + Print + AllocGlobal, F: FnMut(&[u32]) -> io::Result<()>>(
    rt: &R,
    least: usize,
    mut run_case: F,
) -> io::Result<()>
    requires { F.IsAlwaysCallable run_case }
{
    for line in rt.lines(rt.alloc()) {
        if let Some(numbers) = read_case(rt, &line?, least)? {
            run_case(&numbers)?;
        }
    }
    Ok(())
}

// Prints a letter and numbers as one line.
pub fn print_line(
    rt: &(impl Print + AllocGlobal),
    letter: char,
    numbers: &[u32],
) -> io::Result<()> {
    let mut line = format!(in rt.alloc(); "{letter}")?;
    for x in numbers {
        write!(line, ",{x}")?;
    }
    rt.println(line)
}

pub fn print_refusal(rt: &(impl Print + AllocGlobal), refusal: Refusal) -> io::Result<()> {
    print_line(rt, 'R', &numbers_of(Err(refusal)))
}

pub fn print_clean(rt: &impl Print, clean: bool) -> io::Result<()> {
    rt.println(if clean { "clean" } else { "dirty" })
}

impl Lent {
    // Prints the lines of the list and of the three tables, each to its end.
    pub fn print(&self, rt: &(impl Print + AllocGlobal)) -> io::Result<()> {
        print_line(rt, 'L', &self.list)?;
        print_line(rt, 'V', &self.v2e)?;
        print_line(rt, 'E', &self.e2e)?;
        print_line(rt, 'B', &self.b2e)
    }
}
