// The border sides of a list whose siblings are partners, numbered in order of code, and the three tables with them.
//
// The work holds for each vertex its least side, which becomes V2e; for each place of the list the sibling, which becomes E2e; and then
// B2e, as many places again.
//
// n, list and work stay parameters: work is lent as a `&mut`, and a struct would owe a clause in each function that it holds the same reference.
#![tactic(auto)]

ghost use Rattle.std.specs.Prelude.{◌≡◌, ◌+◌, ◌*◌, ◌-◌, ◌≤◌, ◌<◌, length};
ghost use Rattle.rules.specs.Elements.{max_element, Side, destination, side_at};
ghost use Rattle.borders.specs.Numbers.{Ready, Numbered, Matched, Numbering, Put, entered};

use buffers::clear;
use halfedge::{HalfEdge, code_at, is_border, wide};
use sides::destination_of;

// How many border sides there are, and how many sides.
#[derive(Clone, Copy)]
pub struct Counts {
    pub borders: u32,
    pub sides: u32,
}

pub fn number_borders(n: usize, list: &[u32], work: &mut [u32]) -> Counts
    requires { Ready n list.now work.old }
    ensures { Numbered n list.now result.borders result.sides work.old work.new }
{
    let start = n + list.len();
    let end = start + list.len();
    clear(&mut work[start..end]);
    number(n, list, work)
}

// Goes over the places of the list.
fn number(n: usize, list: &[u32], work: &mut [u32]) -> Counts
    requires cases { Matched n list.now }
    requires numbering { Numbering n list.now 0 0 0 work.old }
    ensures { Numbering n list.now (length list.now) result.borders result.sides work.new }
{
    let mut counts = Counts {
        borders: 0,
        sides: 0,
    };
    for p in 0..list.len() {
        counts = number_place(n, list, work, p, counts);
    }
    counts
}

// Counts the side at place p, if there is one. A side that is its own sibling is a border side.
fn number_place(n: usize, list: &[u32], work: &mut [u32], p: usize, counts: Counts) -> Counts
    requires cases { Matched n list.now }
    requires p_in_bounds { p < length list.now }
    requires numbering { Numbering n list.now p counts.borders counts.sides work.old }
    ensures { Numbering n list.now (p + 1) result.borders result.sides work.new }
{
    let sibling = work[n + p];
    if sibling == 0 {
        return counts;
    }
    let sides = counts.sides + 1;
    if sibling != code_at(p) {
        return Counts { sides, ..counts };
    }
    let borders = counts.borders + 1;
    put_border(n, list, work, p, borders);
    Counts { borders, sides }
}

// Gives the border side at place p the number b.
fn put_border(n: usize, list: &[u32], work: &mut [u32], p: usize, b: u32)
    requires p_in_bounds { (p < length list.now) × (1 ≤ b) × (b ≤ p + 1) × (length list.now ≤ 4 * max_element) × (n + 2 * length list.now ≤ length work.old) }
    requires side { Side list.now (side_at p) × (1 ≤ destination list.now (side_at p)) × (destination list.now (side_at p) ≤ n) }
    ensures { Put (destination list.now (side_at p) - 1) (8 * b) (entered n list.now p b work.old) work.new }
{
    let s = code_at(p);
    let border = HalfEdge::border(b).code;
    work[n + p] = border;
    work[n + list.len() + wide(b) - 1] = s;
    put_vertex(work, wide(destination_of(list, s)) - 1, border);
}

// Puts a border into a V2e entry, unless it has a border already.
fn put_vertex(work: &mut [u32], i: usize, border: u32)
    requires { i < length work.old }
    ensures { Put i border work.old work.new }
{
    if !is_border(work[i]) {
        work[i] = border;
    }
}
