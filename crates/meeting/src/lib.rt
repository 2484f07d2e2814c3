// Check 18, over a list that passed checks 3 to 7: the least two elements that don't meet well.
//
// Two elements clash where a diagonal of one joins two vertices that a side or a diagonal of the other joins too, which the sibling map's
// pass has found; or where they are triangles with the same corners, which the map tells.
// Element 0 is none: these are the very numbers of the rules' `clashing` and `clash_of`.
#![tactic(auto)]

ghost use Rattle.std.specs.Prelude.{◌≡◌, ◌+◌, ◌*◌, ◌≤◌};
ghost use Rattle.rules.specs.Elements.{elements, max_element, Side, some_number, sides};
ghost use Rattle.rules.specs.Pairing.{joins, is_corner, shared_corners, share_side, meet_well, Element};
ghost use Rattle.rules.specs.Refusals.{crowded_side, clash_of, clashing};
ghost use Rattle.checks.specs.Maps.{Mapped};
ghost use Rattle.siblings.specs.Crossings.{FirstCrossed};
ghost use Rattle.meeting.specs.Folds.{is_folded, folded_element, LesserOf};

use halfedge::{corner, element_of, side_code, side_count, slot_of, wide};
use sides::{destination_of, origin_of, row_at};

// Sides 1 and 2 of element f have their siblings in one element, and that isn't f.
// n, list and work stay parameters: callers hold the work as `&mut`, and lend it for this pass alone.
fn is_folded(n: usize, list: &[u32], work: &[u32], f: u32) -> bool
    requires { Mapped n list.now work.now × Element list.now f }
    ensures { result ≡ is_folded list.now f }
{
    let place = n + slot_of(side_code(f, 1));
    let g = element_of(work[place]);
    g == element_of(work[place + 1]) && g != f
}

// The least such element; 0 where there is none.
fn folded_element(n: usize, list: &[u32], work: &[u32]) -> u32
    requires { Mapped n list.now work.now }
    ensures { result ≡ folded_element list.now }
{
    let m = (list.len() / 4) as u32;
    (1..=m).find(|f| is_folded(n, list, work, *f)).unwrap_or(0)
}

// The lesser of two elements, 0 being none. Kept beside siblings' lesser_element, whose second element counts whatever it is.
fn lesser_of(a: u32, b: u32) -> u32
    ensures { LesserOf a b result }
{
    if a == 0 || b == 0 {
        return a.max(b);
    }
    a.min(b)
}

// The least element that doesn't meet another well, by the least one that the sibling map's pass found; 0 where there is none.
pub fn clashing_element(n: usize, list: &[u32], work: &[u32], crossed: u32) -> u32
    requires { Mapped n list.now work.now × (crowded_side list.now ≡ 0) × FirstCrossed list.now crossed }
    ensures { result ≡ clashing list.now }
{
    lesser_of(crossed, folded_element(n, list, work))
}

// v is a corner of element f.
fn is_corner(list: &[u32], f: u32, v: u32) -> bool
    requires { Element list.now f }
    ensures { result ≡ is_corner list.now f v }
{
    let row = row_at(list, f);
    (1..=side_count(row)).any(|i| corner(row, i) == v)
}

// How many corners of f are corners of g too.
fn shared_corners(list: &[u32], f: u32, g: u32) -> u32
    requires { Element list.now f × Element list.now g }
    ensures { result ≡ shared_corners list.now f g }
{
    let row = row_at(list, f);
    (1..=side_count(row))
        .filter(|i| is_corner(list, g, corner(row, *i)))
        .count() as u32
}

// Two sides join the same two vertices.
fn is_joined(list: &[u32], s: u32, t: u32) -> bool
    requires { Side list.now s × Side list.now t }
    ensures { result ≡ joins list.now s t }
{
    let (a, b) = (origin_of(list, s), destination_of(list, s));
    let (c, d) = (origin_of(list, t), destination_of(list, t));
    (a, b) == (c, d) || (a, b) == (d, c)
}

// A side of element g joins the vertices of side s.
// Kept apart from share_side: each is an `any` with a test of its own, under a definition of its own.
fn has_side(list: &[u32], g: u32, s: u32) -> bool
    requires { Element list.now g × Side list.now s × (elements list.now ≤ max_element) }
    ensures { result ≡ some_number (sides list.now g) (λ j. joins list.now s (8 * g + j)) }
{
    (1..=side_count(row_at(list, g))).any(|j| is_joined(list, s, side_code(g, j)))
}

// A side of f and a side of g join the same two vertices.
fn share_side(list: &[u32], f: u32, g: u32) -> bool
    requires { Element list.now f × Element list.now g × (elements list.now ≤ max_element) }
    ensures { result ≡ share_side list.now f g }
{
    (1..=side_count(row_at(list, f))).any(|i| has_side(list, g, side_code(f, i)))
}

// f and g share no corner, one corner, or exactly two corners that are also a side of both.
#[tactic(auto, unfolding(rules::specs::Pairing::meet_well))]
fn meet_well(list: &[u32], f: u32, g: u32) -> bool
    requires { Element list.now f × Element list.now g × (elements list.now ≤ max_element) }
    ensures { result ≡ meet_well list.now f g }
{
    match shared_corners(list, f, g) {
        0 | 1 => true,
        2 => share_side(list, f, g),
        _ => false,
    }
}

// The least element above f that doesn't meet f well; 0 where there is none.
pub fn clash_of(list: &[u32], f: u32) -> u32
    requires { Element list.now f × (elements list.now ≤ max_element) }
    ensures { result ≡ clash_of list.now f }
{
    let m = (list.len() / 4) as u32;
    (f + 1..=m).find(|g| !meet_well(list, f, *g)).unwrap_or(0)
}
