// Refusal 20, document 02, point 8: whether the ends of an edge have a common neighbour other than the third corners of its triangles. The
// neighbours of one end are marked, one entry for each vertex, and the sides at the other end are looked at. Diagonals join no neighbours.
// Vertex 0 is none, as in an element list: what is told of it is passed over.
#![tactic(auto)]

ghost use Rattle.std.specs.Prelude.{◌≡◌, ◌+◌, ◌*◌, ◌≤◌, length};
ghost use Rattle.lists.specs.TestLaws.{Means};
ghost use Rattle.rules.specs.Pairing.{Element};
ghost use Rattle.halfedge.specs.Rows.{corner_of};
ghost use Rattle.theory.specs.FitRows.{Fit};
ghost use Rattle.theory.specs.Coarsening.{pinches_by};
ghost use Rattle.theory.specs.ContractTests.{Neighbours};
ghost use Rattle.pinched.specs.Marks.{Markable, Marked, Itself, Joined};
ghost use Rattle.pinched.specs.Corners.{Other};
ghost use Rattle.pinched.specs.Common.{Counts, Met, MetAnywhere};

use buffers::clear_first;
use halfedge::{corner, side_count, wide};
use sides::row_at;

// The other one of corners i and j where one of them is a; 0 where neither is.
fn other_corner(row: [u32; 4], i: u32, j: u32, a: u32) -> u32
    ensures { Other (corner_of row i) (corner_of row j) a result }
{
    let x = corner(row, i);
    let y = corner(row, j);
    if x == a {
        return y;
    }
    if y == a {
        return x;
    }
    0
}

// Vertex v is marked; nothing where it is 0.
fn mark(v: u32, marks: &mut [u32])
    requires { v ≤ length marks.old }
    ensures { Marked (Itself v) marks.old marks.new }
{
    if v != 0 {
        marks[wide(v - 1)] = 1;
    }
}

// The vertices that sides of element f join to a are marked.
fn mark_by_element(list: &[u32], f: u32, a: u32, marks: &mut [u32])
    requires { Markable list.now marks.old × Element list.now f }
    ensures { Marked (Joined list.now (8 * f) (8 * f + 8) a) marks.old marks.new }
{
    let row = row_at(list, f);
    let k = side_count(row);
    for i in 1..k {
        mark(other_corner(row, i, i + 1, a), marks);
    }
    mark(other_corner(row, k, 1, a), marks);
}

// The vertices that sides of the list join to a are marked. A loop over the elements, as others are: what it does with each is its own.
fn mark_neighbours(list: &[u32], a: u32, marks: &mut [u32])
    requires { Markable list.now marks.old }
    ensures { Marked (Neighbours list.now a) marks.old marks.new }
{
    let m = (list.len() / 4) as u32;
    for f in 1..=m {
        mark_by_element(list, f, a, marks);
    }
}

// v is a marked vertex other than c and d.
fn counts(v: u32, c: u32, d: u32, marks: &[u32]) -> bool
    requires { v ≤ length marks.now }
    ensures { Means result (Counts marks.now c d v) }
{
    v != 0 && v != c && v != d && marks[wide(v - 1)] == 1
}

// A side of element f joins b to a marked vertex other than c and d.
// Kept apart from mark_by_element: a closure for both would hold the marks as `&mut` in one and as `&` in the other.
fn meets_by_element(list: &[u32], f: u32, b: u32, c: u32, d: u32, marks: &[u32]) -> bool
    requires { Markable list.now marks.now × Element list.now f }
    ensures { Means result (Met list.now (8 * f) (8 * f + 8) b (Counts marks.now c d)) }
{
    let row = row_at(list, f);
    let k = side_count(row);
    (1..k).any(|i| counts(other_corner(row, i, i + 1, b), c, d, marks))
        || counts(other_corner(row, k, 1, b), c, d, marks)
}

// A side of the list joins b to a marked vertex other than c and d.
fn meets_marked(list: &[u32], b: u32, c: u32, d: u32, marks: &[u32]) -> bool
    requires { Markable list.now marks.now }
    ensures { Means result (MetAnywhere list.now b (Counts marks.now c d)) }
{
    let m = (list.len() / 4) as u32;
    (1..=m).any(|f| meets_by_element(list, f, b, c, d, marks))
}

// Whether a and b have a common neighbour other than c and d. The four stay parameters: no function but this asks for all of them. The first n entries of the work are scratch.
pub fn is_pinched(n: u32, list: &[u32], work: &mut [u32], a: u32, b: u32, c: u32, d: u32) -> bool
    requires { Fit n list.now × (n ≤ length work.old) }
    ensures value { result ≡ pinches_by n list.now a b c d }
    ensures work_len_unchanged { length work.new ≡ length work.old }
{
    clear_first(wide(n), work);
    mark_neighbours(list, a, work);
    meets_marked(list, b, c, d, work)
}
