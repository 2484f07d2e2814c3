// Edges of any number of plates, document 02, point 12: an element list to the sibling of each side and the least side of each vertex.
// The buffers are kept as parameters: with a struct of `&mut` buffers each function would owe a clause for each, that it holds the same reference.
#![tactic(auto)]

ghost use Rattle.std.specs.Prelude.{◌≡◌, ◌+◌, ◌*◌, ◌≤◌, length};
ghost use Rattle.rules.specs.Elements.{elements};
ghost use Rattle.rules.specs.Siblings.{siblings_answer, siblings_leaves, v2he};
ghost use Rattle.rules.specs.Siblings.{sibhe as sibhe_of};
ghost use Rattle.theory.specs.FitRows.{Fit};
ghost use Rattle.answer.specs.Numbers.{numbers};
ghost use Rattle.sibling_map.specs.Mapping.{Checked, Mapped, lent_maps};

use answer::{Answer, Reason, give_two, refuse};
use buffers::{clear, copy};
use checks::first_sides;
use corners::check_rows;
use halfedge::wide;
use lengths::{lengths_fit, sizes_fit};
use siblings::siblings as map_siblings;

// Both maps of a list with fit rows.
fn write(n: usize, list: &[u32], v2e: &mut [u32], sibhe: &mut [u32], work: &mut [u32])
    requires { Fit n list.now × (length v2e.old ≡ n) × (length sibhe.old ≡ 4 * elements list.now) × (n + 16 * elements list.now ≤ length work.old) }
    ensures v2e_after { (v2e.new ≡ v2he n list.now) × (sibhe.new ≡ sibhe_of list.now) }
    ensures work_len_unchanged { length work.new ≡ length work.old }
{
    map_siblings(n, list, work);
    let end = n + list.len();
    copy(&work[n..end], sibhe);
    first_sides(n, list, v2e);
}

// Checks 3 and 4 and the maps, where the lengths are fit. The work buffer isn't cleared yet.
fn map_fit(n: u32, list: &[u32], v2e: &mut [u32], sibhe: &mut [u32], work: &mut [u32]) -> Answer
    requires { Checked n list.now v2e.old sibhe.old work.old }
    ensures mapped { Mapped n list.now (numbers result) v2e.old sibhe.old v2e.new sibhe.new }
    ensures work_len_unchanged { length work.new ≡ length work.old }
{
    check_rows(n, list)?;
    write(wide(n), list, v2e, sibhe, work);
    give_two(0, 0)
}

// For each side the next higher side that joins the same two vertices, the last followed by the first, in four columns; for each vertex
// the least side that starts there. A refusal leaves both as they were. The work buffer is all zero afterwards, but after refusals 1 and 2,
// which leave it as it was.
pub fn siblings(
    n: u32,
    list: &[u32],
    v2e: &mut [u32],
    sibhe: &mut [u32],
    work: &mut [u32],
) -> Answer
    ensures result_value { numbers result ≡ siblings_answer n list.now (lent_maps v2e.old sibhe.old work.old) }
    ensures work_after { lent_maps v2e.new sibhe.new work.new ≡ siblings_leaves n list.now (lent_maps v2e.old sibhe.old work.old) }
{
    let m = list.len() / 4;
    if !sizes_fit(n, m, list.len()) {
        return refuse(Reason::Sizes);
    }
    if !lengths_fit(n, m, sibhe.len() == 4 * m, v2e.len(), work.len()) {
        return refuse(Reason::Lengths);
    }
    let a = map_fit(n, list, v2e, sibhe, work);
    clear(work);
    a
}
