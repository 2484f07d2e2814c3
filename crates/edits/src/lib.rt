// What edits share: checks 1 and 2, where buffers may be longer than what they hold, whether the half-edge named is there, what the tables of
// the old list say of a side, a row put in its place, and the tables of the new list.
// The buffers are kept as parameters: with a struct of `&mut` buffers each function would owe a clause for each, that it holds the same reference.
#![tactic(auto)]

ghost use Rattle.std.specs.Prelude.{◌≡◌, ◌⊎◌, ◌*◌, ◌≤◌, eqb, length, take};
ghost use Rattle.lists.specs.Search.{at};
ghost use Rattle.rules.specs.Elements.{max_vertex, max_element, sides, Side, slot};
ghost use Rattle.rules.specs.Tables.{borders};
ghost use Rattle.rules.specs.Tables.{wide as wide_of};
ghost use Rattle.edit_rules.specs.Edits.{counts_fit, with_row, is_there};
ghost use Rattle.edit_rules.specs.Split.{is_splittable};
ghost use Rattle.halfedge.specs.Rows.{row_of};
ghost use Rattle.answer.specs.Numbers.{numbers};
ghost use Rattle.edits.specs.Holding.{lent_edit, room_for, Looked};
ghost use Rattle.edits.specs.Trying.{Tabled};
ghost use Rattle.edits.specs.Fronts.{Fitting, Fronted};

use answer::{Answer, Reason, Refusal};
use buffers::copy;
use build::build_fit;
use columns::columns_of;
use halfedge::{HalfEdge, element_of, is_border, side_count, slot_of, wide};
use sides::{is_side, row_at};

// Check 1, which reads n and m only.
#[tactic(auto, unfolding(edit_rules::specs::Edits::counts_fit))]
pub fn counts_fit(n: u32, m: u32) -> bool
    ensures { result ≡ counts_fit n m }
{
    n <= HalfEdge::MAX_VERTEX && m <= HalfEdge::MAX_ELEMENT
}

// Whether buffers of these lengths have room for n vertices and m elements.
pub fn has_room(
    n: u32,
    m: u32,
    columns: u32,
    list: usize,
    v2e: usize,
    e2e: usize,
    work: usize,
) -> bool
    requires { (n ≤ max_vertex) × (m ≤ max_element) × ((columns ≡ 3) ⊎ (columns ≡ 4)) }
    ensures { result ≡ room_for columns n m list v2e e2e work }
{
    let vertices = wide(n);
    let elements = wide(m);
    4 * elements <= list
        && vertices <= v2e
        && wide(columns) * elements <= e2e
        && vertices + 16 * elements <= work
}

// Checks 1 and 2 of an edit: the columns of the first m rows. `others` says whether what else is lent to the edit is long enough.
pub fn check_lent(
    n: u32,
    m: u32,
    others: bool,
    list: &[u32],
    v2e: usize,
    e2e: usize,
    work: usize,
) -> Result<u32, Refusal>
    ensures { Looked n m others list.now v2e e2e work result }
{
    if !counts_fit(n, m) {
        return Err(Refusal::of(Reason::Sizes));
    }
    let rows = 4 * wide(m);
    if !others || list.len() < rows {
        return Err(Refusal::of(Reason::Lengths));
    }
    let columns = columns_of(&list[0..rows]);
    if !has_room(n, m, columns, list.len(), v2e, e2e, work) {
        return Err(Refusal::of(Reason::Lengths));
    }
    Ok(columns)
}

// Whether a side or one of the k border half-edges of the list has this code.
pub fn is_there(list: &[u32], k: u32, code: u32) -> bool
    requires { k ≡ borders list.now }
    ensures { result ≡ is_there list.now code }
{
    is_side(list, code) || is_border(code) && (1..=k).contains(&element_of(code))
}

pub fn is_triangle(list: &[u32], f: u32) -> bool
    requires { (1 ≤ f) × (4 * f ≤ length list.now) }
    ensures { result ≡ eqb (sides list.now f) 3 }
{
    side_count(row_at(list, f)) == 3
}

// The entry of side s in the E2e of four columns that stands from n on in the work buffer.
pub fn entry_of(n: usize, list: &[u32], work: &[u32], s: u32) -> u32
    requires { Tabled n list.now work.now × Side list.now s }
    ensures { result ≡ at (wide_of list.now) (slot s) }
{
    work[n + slot_of(s)]
}

// Whether s is a side of a triangle, with a triangle or nothing across it, by the E2e of four columns that stands from n on in the work
// buffer.
pub fn is_splittable(n: usize, list: &[u32], work: &[u32], s: u32) -> bool
    requires { Tabled n list.now work.now }
    ensures { result ≡ is_splittable list.now s }
{
    if !is_side(list, s) || !is_triangle(list, element_of(s)) {
        return false;
    }
    let t = entry_of(n, list, work, s);
    is_border(t) || is_triangle(list, element_of(t))
}

// The row of element f is replaced.
pub fn put_row(f: u32, row: [u32; 4], list: &mut [u32])
    requires { (1 ≤ f) × (4 * f ≤ length list.old) }
    ensures { list.new ≡ with_row f (row_of row) list.old }
{
    let a = 4 * wide(f - 1);
    let e = a + 4;
    copy(&row, &mut list[a..e]);
}

// The tables of the first m rows of the list, in buffers that may be longer than these.
pub fn build_front(
    n: u32,
    m: u32,
    columns: u32,
    list: &[u32],
    v2e: &mut [u32],
    e2e: &mut [u32],
    b2e: &mut [u32],
    work: &mut [u32],
) -> Answer
    requires { Fitting (lent_edit n m list.now v2e.old e2e.old b2e.old work.old) columns }
    ensures fronted { Fronted n (take (4 * m) list.now) (numbers result) v2e.old e2e.old b2e.old v2e.new e2e.new b2e.new }
    ensures work_len_unchanged { length work.new ≡ length work.old }
{
    let vertices = wide(n);
    let elements = wide(m);
    let rows = 4 * elements;
    let entries = wide(columns) * elements;
    build_fit(
        n,
        columns,
        &list[0..rows],
        &mut v2e[0..vertices],
        &mut e2e[0..entries],
        b2e,
        work,
    )
}
