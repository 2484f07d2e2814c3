// Checks 3 and 4: unfit and repeated corners.
// Side 0 is none: what the pass has found so far is a code, of which its facts speak (`Scanned`, `Repeating`).
#![tactic(auto)]

ghost use Rattle.std.specs.Prelude.{◌≡◌, ◌+◌, ◌*◌, ◌≤◌, length};
ghost use Rattle.rules.specs.Elements.{elements, max_element};
ghost use Rattle.rules.specs.Refusals.{gives, row_checks};
ghost use Rattle.answer.specs.Numbers.{checked};
ghost use Rattle.corners.specs.Faults.{no_vertex, number_in, UnfitIn, RepeatedIn, Repeating};

use answer::{Reason, Refusal};
use halfedge::{code_at, row};

fn no_vertex(n: u32, x: u32) -> bool
    ensures { result ≡ no_vertex n x }
{
    x == 0 || n < x
}

// The place in a row of its first corner that is no vertex.
fn unfit_in(n: u32, row: [u32; 4]) -> Option<usize>
    ensures { UnfitIn n row (number_in result) }
{
    if no_vertex(n, row[0]) {
        return Some(0);
    }
    if no_vertex(n, row[1]) {
        return Some(1);
    }
    if no_vertex(n, row[2]) {
        return Some(2);
    }
    if n < row[3] {
        return Some(3);
    }
    None
}

// The place in a row of its first corner that equals an earlier one.
fn repeated_in(row: [u32; 4]) -> Option<usize>
    ensures { RepeatedIn row (number_in result) }
{
    if row[1] == row[0] {
        return Some(1);
    }
    if row[2] == row[0] || row[2] == row[1] {
        return Some(2);
    }
    if row[3] == 0 {
        return None;
    }
    if row[3] == row[0] || row[3] == row[1] || row[3] == row[2] {
        return Some(3);
    }
    None
}

// The first repeated corner: the one found before, or else that of the row at a.
fn first_repeated(found: u32, a: usize, row: [u32; 4]) -> u32
    requires { a + 4 ≤ 4 * max_element }
    ensures { Repeating a row found result }
{
    if found != 0 {
        return found;
    }
    match repeated_in(row) {
        Some(i) => code_at(a + i),
        None => 0,
    }
}

// What checks 3 and 4 say, in one pass.
pub fn check_rows(n: u32, list: &[u32]) -> Result<(), Refusal>
    requires { (length list.now ≡ 4 * elements list.now) × (elements list.now ≤ max_element) }
    ensures { checked result ≡ row_checks n list.now (gives 0 0) }
{
    let mut repeated = 0;
    for f in 0..list.len() / 4 {
        let a = 4 * f;
        let corners = row(&list[a..a + 4]);
        if let Some(i) = unfit_in(n, corners) {
            return Err(Refusal::at_side(Reason::Unfit, code_at(a + i)));
        }
        repeated = first_repeated(repeated, a, corners);
    }
    if repeated != 0 {
        return Err(Refusal::at_side(Reason::Repeated, repeated));
    }
    Ok(())
}
