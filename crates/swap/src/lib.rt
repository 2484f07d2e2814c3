// Swapping the diagonal of two triangles, document 02, point 1.
// The buffers are kept as parameters: with a struct of `&mut` buffers each function would owe a clause for each, that it holds the same reference.
#![tactic(auto)]

ghost use Rattle.std.specs.Prelude.{◌≡◌, [], ◌∷◌, ◌*◌, length};
ghost use Rattle.lists.specs.Search.{at};
ghost use Rattle.rules.specs.Tables.{columns as columns_in};
ghost use Rattle.rules.specs.Refusals.{list_answer, room_check};
ghost use Rattle.edit_rules.specs.Edits.{becomes, once_accepted, new_answer};
ghost use Rattle.edit_rules.specs.Swap.{swapped, is_swappable, swap_answer, swap_leaves};
ghost use Rattle.edit_rules.specs.Swap.{swap as swap_of};
ghost use Rattle.halfedge.specs.Rows.{corner_of, previous_side};
ghost use Rattle.answer.specs.Numbers.{numbers};
ghost use Rattle.build.specs.Building.{Checked};
ghost use Rattle.edits.specs.Holding.{lent_edit};
ghost use Rattle.edits.specs.Leaving.{tight, Left};
ghost use Rattle.edits.specs.Trying.{Tabled};
ghost use Rattle.swap.specs.Swaps.{Flips, ToSwap};

use answer::{Answer, Reason, refuse};
use buffers::clear;
use build::build_fit;
use edits::{check_lent, entry_of, is_there, is_triangle, put_row};
use halfedge::{corner, element_of, is_border, number_of, previous_side, wide};
use sides::{is_side, row_at};
use tabulate::tabulate_front;

// The corner of a triangle before the origin of its side i. Of a row, as contract's `third_of` is of a list, where no row is at hand.
fn third(row: [u32; 4], i: u32) -> u32
    ensures { result ≡ corner_of row (previous_side row i) }
{
    corner(row, previous_side(row, i))
}

// The row of a triangle whose side i is swapped, d the third corner across it.
fn flip(row: [u32; 4], i: u32, d: u32) -> [u32; 4]
    ensures { result ≡ corner_of row (previous_side row i) ∷ corner_of row i ∷ d ∷ 0 ∷ [] }
{
    [third(row, i), corner(row, i), d, 0]
}

// The rows of the two triangles with side s, of the one, and its partner t, of the other, swapped.
fn flip_rows(list: &mut [u32], s: u32, t: u32)
    requires { Flips list.old s t }
    ensures { list.new ≡ swapped list.old s }
{
    let f = element_of(s);
    let i = number_of(s);
    let g = element_of(t);
    let j = number_of(t);
    let row = row_at(list, f);
    let other = row_at(list, g);
    let c = third(row, i);
    let d = third(other, j);
    put_row(f, flip(row, i, d), list);
    put_row(g, flip(other, j, c), list);
}

// The new list is tried, and its tables written; where it is refused, the old rows are put back.
fn swap_rows(
    n: u32,
    columns: u32,
    list: &mut [u32],
    v2e: &mut [u32],
    e2e: &mut [u32],
    b2e: &mut [u32],
    work: &mut [u32],
    s: u32,
    t: u32,
) -> Answer
    requires { ToSwap n list.old v2e.old e2e.old work.old s t × (columns ≡ columns_in list.old) }
    ensures left { Left (room_check (length b2e.old) (list_answer n (swapped list.old s))) (numbers result) (tight n list.old v2e.old e2e.old b2e.old) (becomes n (swapped list.old s)) (tight n list.new v2e.new e2e.new b2e.new) }
    ensures work_len_unchanged { length work.new ≡ length work.old }
{
    let f = element_of(s);
    let g = element_of(t);
    let row = row_at(list, f);
    let other = row_at(list, g);
    flip_rows(list, s, t);
    let a = build_fit(n, columns, list, v2e, e2e, b2e, work);
    let Ok(built) = a else {
        put_row(f, row, list);
        put_row(g, other, list);
        return a;
    };
    Ok(built)
}

// Whether s is an inner side between two triangles, by that E2e.
fn is_swappable(n: usize, list: &[u32], work: &[u32], s: u32) -> bool
    requires { Tabled n list.now work.now }
    ensures { result ≡ is_swappable list.now s }
{
    if !is_side(list, s) || !is_triangle(list, element_of(s)) {
        return false;
    }
    let t = entry_of(n, list, work, s);
    !is_border(t) && is_triangle(list, element_of(t))
}

// All that follows checks 1 and 2, in buffers that are as long as what they hold. The work buffer isn't cleared yet.
fn swap_fit(
    n: u32,
    columns: u32,
    list: &mut [u32],
    v2e: &mut [u32],
    e2e: &mut [u32],
    b2e: &mut [u32],
    work: &mut [u32],
    code: u32,
) -> Answer
    requires { Checked n list.old v2e.old e2e.old work.old × (columns ≡ columns_in list.old) }
    ensures left { Left (once_accepted (list_answer n list.old) (new_answer (length b2e.old) (swap_of n list.old code))) (numbers result) (tight n list.old v2e.old e2e.old b2e.old) (swap_of n list.old code) (tight n list.new v2e.new e2e.new b2e.new) }
    ensures work_len_unchanged { length work.new ≡ length work.old }
{
    let vertices = wide(n);
    let k = tabulate_front(n, list, work)?.first;
    if !is_there(list, k, code) {
        return refuse(Reason::Absent);
    }
    if !is_swappable(vertices, list, work, code) {
        return refuse(Reason::Uneditable);
    }
    let partner = entry_of(vertices, list, work, code);
    swap_rows(n, columns, list, v2e, e2e, b2e, work, code, partner)
}

// The list with the diagonal of this code swapped, and its tables, with k and the number of edges; or a refusal, which leaves list and tables
// as they were. n and m stay. The work buffer is all zero afterwards, but after refusals 1 and 2, which leave it as it was.
pub fn swap(
    n: u32,
    m: u32,
    list: &mut [u32],
    v2e: &mut [u32],
    e2e: &mut [u32],
    b2e: &mut [u32],
    work: &mut [u32],
    code: u32,
) -> Answer
    ensures result_value { numbers result ≡ swap_answer (lent_edit n m list.old v2e.old e2e.old b2e.old work.old) code }
    ensures work_after { lent_edit n m list.new v2e.new e2e.new b2e.new work.new ≡ swap_leaves (lent_edit n m list.old v2e.old e2e.old b2e.old work.old) code }
{
    let columns = check_lent(n, m, true, list, v2e.len(), e2e.len(), work.len())?;
    let vertices = wide(n);
    let elements = wide(m);
    let rows = 4 * elements;
    let entries = wide(columns) * elements;
    let a = swap_fit(
        n,
        columns,
        &mut list[0..rows],
        &mut v2e[0..vertices],
        &mut e2e[0..entries],
        b2e,
        work,
        code,
    );
    clear(work);
    a
}
