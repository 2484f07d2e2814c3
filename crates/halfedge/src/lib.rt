// Half-edge numbers and element rows, document 01, "Element list and half-edge numbers".
#![tactic(auto)]

ghost use Rattle.std.specs.Prelude.{◌≡◌, ◌+◌, ◌*◌, ◌≤◌, ◌<◌, eqb};
ghost use Rattle.lists.specs.Search.{at};
ghost use Rattle.lists.specs.Tests.{within};
ghost use Rattle.rules.specs.Elements.{max_element, max_border, element, number, sides_by, slot, side_at};
ghost use Rattle.rules.specs.Tables.{e2e_slot};
ghost use Rattle.halfedge.specs.Codes.{side_code, border_code, known_code};
ghost use Rattle.halfedge.specs.Rows.{row_of, corner_of, by_kind, next_side, previous_side};

mod quadrilateral;
mod triangle;

// A side ⟨f,i⟩ or a border half-edge ⟨b,0⟩ by its code. Code 0 names nothing.
#[derive(Clone, Copy)]
pub struct HalfEdge {
    pub code: u32,
}

impl HalfEdge {
    pub const MAX_VERTEX: u32 = 1_000_000;

    pub const MAX_ELEMENT: u32 = 1_000_000;

    pub const MAX_BORDER: u32 = 4_000_000;

    // Kept as functions that answer code 0 for none, and not From or TryFrom: document 01 names side, border and from_code.

    // Side i of element f.
    pub fn side(f: u32, i: u32) -> HalfEdge
        ensures { result.code ≡ side_code f i }
    {
        if !is_within(1, HalfEdge::MAX_ELEMENT, f) || !is_within(1, 4, i) {
            return HalfEdge { code: 0 };
        }
        HalfEdge {
            code: side_code(f, i),
        }
    }

    // Border half-edge b.
    pub fn border(b: u32) -> HalfEdge
        ensures { result.code ≡ border_code b }
    {
        if !is_within(1, HalfEdge::MAX_BORDER, b) {
            return HalfEdge { code: 0 };
        }
        HalfEdge {
            code: border_code(b),
        }
    }

    pub fn from_code(c: u32) -> HalfEdge
        ensures { result.code ≡ known_code c }
    {
        if is_border(c) {
            return HalfEdge::border(element_of(c));
        }
        HalfEdge::side(element_of(c), number_of(c))
    }

    // The element of a side, or the number of a border half-edge.
    pub fn element(self) -> u32
        ensures { result ≡ element self.code }
    {
        element_of(self.code)
    }

    // The side's number in its element, 0 of a border half-edge.
    pub fn number(self) -> u32
        ensures { result ≡ number self.code }
    {
        number_of(self.code)
    }
}

// The code of side i of element f.
pub fn side_code(f: u32, i: u32) -> u32
    requires { (f ≤ 536_870_911) × (i ≤ 4) }
    ensures { result ≡ 8 * f + i }
{
    8 * f + i
}

// The code of border half-edge b.
pub fn border_code(b: u32) -> u32
    requires { b ≤ max_border }
    ensures { result ≡ 8 * b }
{
    8 * b
}

// The element of a side's code, or the number of a border half-edge's.
pub fn element_of(code: u32) -> u32
    ensures { result ≡ element code }
{
    code / 8
}

// The side's number in its element, 0 of a border half-edge.
pub fn number_of(code: u32) -> u32
    ensures { result ≡ number code }
{
    code % 8
}

// Whether a code is that of a border half-edge, or 0.
pub fn is_border(code: u32) -> bool
    ensures { result ≡ eqb (number code) 0 }
{
    code % 8 == 0
}

// The row of one element, read from that element's part of the list.
pub fn row(part: &[u32]) -> [u32; 4]
    ensures { result ≡ row_of part.now }
{
    [
        entry(part, 0),
        entry(part, 1),
        entry(part, 2),
        entry(part, 3),
    ]
}

// Corner i of a row; 0 where i is not 1 to 4.
pub fn corner(row: [u32; 4], i: u32) -> u32
    ensures { result ≡ corner_of row i }
{
    corner_at(&row, i)
}

// Corner i of an element, read alone from that element's part of the list; 0 where i is not 1 to 4.
pub fn corner_at(part: &[u32], i: u32) -> u32
    ensures { result ≡ corner_of part.now i }
{
    if !is_within(1, 4, i) {
        return 0;
    }
    entry(part, wide(i - 1))
}

pub fn side_count(row: [u32; 4]) -> u32
    ensures { result ≡ sides_by (at row 3) }
{
    by_kind(row, 3, 4)
}

// The number of the side after side i, by the figure of the row's kind; 0 where the row has no side i.
pub fn next_side(row: [u32; 4], i: u32) -> u32
    ensures { result ≡ next_side row i }
{
    by_kind(row, triangle::next(i), quadrilateral::next(i))
}

// The number of the side before side i, by the figure of the row's kind; 0 where the row has no side i.
pub fn previous_side(row: [u32; 4], i: u32) -> u32
    ensures { result ≡ previous_side row i }
{
    by_kind(row, triangle::previous(i), quadrilateral::previous(i))
}

// The code of the side whose origin stands at entry p of the element list.
pub fn code_at(p: usize) -> u32
    requires { p < 4 * max_element }
    ensures { result ≡ side_at p }
{
    side_code((p / 4 + 1) as u32, (p % 4 + 1) as u32)
}

// The entry of the element list at which the origin of side s stands.
#[tactic(auto, unfolding(rules::specs::Elements::slot, rules::specs::Tables::e2e_slot))]
pub fn slot_of(s: u32) -> usize
    requires { (1 ≤ element s) × (1 ≤ number s) }
    ensures { result ≡ slot s }
{
    slot_in(4, s)
}

// The entry of a table of so many columns that is side s's.
#[tactic(auto, unfolding(rules::specs::Tables::e2e_slot))]
pub fn slot_in(columns: u32, s: u32) -> usize
    requires { (columns ≤ 4) × (1 ≤ element s) × (1 ≤ number s) }
    ensures { result ≡ e2e_slot columns s }
{
    wide(columns * (element_of(s) - 1) + (number_of(s) - 1))
}

// The first of two numbers for a triangle, the second for a quadrilateral. A fourth entry of 0 makes a triangle.
fn by_kind(row: [u32; 4], in_triangle: u32, in_quadrilateral: u32) -> u32
    ensures { result ≡ by_kind row in_triangle in_quadrilateral }
{
    if row[3] == 0 {
        in_triangle
    } else {
        in_quadrilateral
    }
}

fn is_within(low: u32, high: u32, x: u32) -> bool
    ensures { result ≡ within low high x }
{
    low <= x && x <= high
}

// Entry i of a part; 0 past its end.
fn entry(part: &[u32], i: usize) -> u32
    ensures { result ≡ at part.now i }
{
    part.get(i).copied().unwrap_or(0)
}

// x as an index. Kept as a function: std has no From<u32> for usize, and crates over this one cast nowhere else.
pub fn wide(x: u32) -> usize
    ensures { result ≡ x }
{
    x as usize
}
