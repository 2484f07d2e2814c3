// What the element list alone says of a side. Elements are read through their parts of the list and their rows.
// That s is a side of the list stays a clause (`Side`): codes come out of tables and go into tables, and a type would be made anew at each.
#![tactic(auto)]

ghost use Rattle.std.specs.Prelude.{◌≡◌, ◌*◌, ◌≤◌, length};
ghost use Rattle.rules.specs.Elements.{is_side, Side, origin, destination, next, previous};
ghost use Rattle.rules.specs.Elements.{row as row_in};
ghost use Rattle.halfedge.specs.Rows.{row_of};

use halfedge::{
    corner, corner_at, element_of, next_side, number_of, previous_side, row, side_code, side_count,
    wide,
};

// The entries of element f.
fn part_at(list: &[u32], f: u32) -> &[u32]
    requires { (1 ≤ f) × (4 * f ≤ length list.now) }
    ensures { result.now ≡ row_in list.now f }
{
    let a = 4 * wide(f - 1);
    &list[a..a + 4]
}

// The row of element f.
pub fn row_at(list: &[u32], f: u32) -> [u32; 4]
    requires { (1 ≤ f) × (4 * f ≤ length list.now) }
    ensures { result ≡ row_of (row_in list.now f) }
{
    row(part_at(list, f))
}

#[tactic(auto, using(crate::proofs::Sided::no_number, crate::proofs::Sided::early_side))]
pub fn is_side(list: &[u32], code: u32) -> bool
    ensures { result ≡ is_side list.now code }
{
    let f = element_of(code);
    let i = number_of(code);
    if f < 1 || list.len() / 4 < wide(f) {
        return false;
    }
    // Every element has three sides, so its row is read for a fourth alone.
    1 <= i && (i < 4 || i <= side_count(row_at(list, f)))
}

pub fn next_code(list: &[u32], s: u32) -> u32
    requires { Side list.now s }
    ensures { result ≡ next list.now s }
{
    let f = element_of(s);
    let i = number_of(s);
    // Sides 1 and 2 are followed as in a triangle in every element, so its row is read for the later ones alone.
    if i < 3 {
        return side_code(f, next_side([0; 4], i));
    }
    side_code(f, next_side(row_at(list, f), i))
}

// As next_code, but with the row read for every side and no branch on its number: for a walk that goes on in that very row.
pub fn next_by_row(list: &[u32], s: u32) -> u32
    requires { Side list.now s }
    ensures { result ≡ next list.now s }
{
    let f = element_of(s);
    side_code(f, next_side(row_at(list, f), number_of(s)))
}

pub fn previous_code(list: &[u32], s: u32) -> u32
    requires { Side list.now s }
    ensures { result ≡ previous list.now s }
{
    let f = element_of(s);
    side_code(f, previous_side(row_at(list, f), number_of(s)))
}

pub fn origin_of(list: &[u32], s: u32) -> u32
    requires { Side list.now s }
    ensures { result ≡ origin list.now s }
{
    corner_at(part_at(list, element_of(s)), number_of(s))
}

pub fn destination_of(list: &[u32], s: u32) -> u32
    requires { Side list.now s }
    ensures { result ≡ destination list.now s }
{
    let row = row_at(list, element_of(s));
    corner(row, next_side(row, number_of(s)))
}
