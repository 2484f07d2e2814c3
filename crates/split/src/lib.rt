// A new vertex on a side, and its midpoint, document 02, point 6.
// The buffers are kept as parameters: with a struct of `&mut` buffers each function would owe a clause for each, that it holds the same reference.
// n and m stay an array of two, `size`: C lends them so.
#![tactic(auto)]

ghost use Rattle.std.specs.Prelude.{◌≡◌, ◌⊎◌, [], ◌+◌, ◌*◌, ◌-◌, ◌≤◌, length, take, get_or, set};
ghost use Rattle.rules.specs.Tables.{columns as columns_in};
ghost use Rattle.rules.specs.Refusals.{onto};
ghost use Rattle.edit_rules.specs.Split.{halved, split_at, split_answer, split_leaves, split_points};
ghost use Rattle.answer.specs.Numbers.{numbers};
ghost use Rattle.edits.specs.Holding.{lent_edit, lent_sized};
ghost use Rattle.edits.specs.Fronts.{Ready};
ghost use Rattle.split.specs.NewRows.{ToHalve, ToSplit, by_border};
ghost use Rattle.split.specs.Testing.{holds_by};
ghost use Rattle.split.specs.Stages.{Admissible, ToWrite, allowed_numbers, Admitted, Written, Outcome};

use answer::{Answer, Reason, Refusal};
use buffers::clear;
use edits::{
    build_front, check_lent, counts_fit, entry_of, has_room, is_splittable, is_there, put_row,
};
use halfedge::{element_of, is_border, next_side, number_of, wide};
use points::place_midpoint;
use sides::{destination_of, origin_of, row_at};
use tabulate::tabulate_front;

// The row with v for corner i.
fn with_corner(mut row: [u32; 4], i: u32, v: u32) -> [u32; 4]
    requires { (1 ≤ i) × (i ≤ 4) }
    ensures { result ≡ set row (i - 1) v }
{
    row[wide(i - 1)] = v;
    row
}

// The triangle of side s, in a list that holds m rows, halved: v takes the place of its destination, and the old row, with v for its origin,
// comes after the others.
fn halve(m: u32, list: &mut [u32], s: u32, v: u32)
    requires { ToHalve m list.old s }
    ensures { list.new ≡ onto (halved (take (4 * m) list.old) s v) list.old }
{
    let f = element_of(s);
    let i = number_of(s);
    let row = row_at(list, f);
    let j = next_side(row, i);
    put_row(f, with_corner(row, j, v), list);
    put_row(m + 1, with_corner(row, i, v), list);
}

// The vertex v put on side s of a list that holds m rows; t is the entry of s in E2e, its partner or a border half-edge.
fn split_rows(m: u32, list: &mut [u32], s: u32, t: u32, v: u32)
    requires { ToSplit m list.old s t v }
    ensures { list.new ≡ onto (split_at (take (4 * m) list.old) s v) list.old }
{
    halve(m, list, s, v);
    if is_border(t) {
        return;
    }
    halve(m + 1, list, t, v);
}

// The first of two numbers for the code of a border half-edge, the second for that of a side.
fn by_border(t: u32, border: u32, inner: u32) -> u32
    ensures { result ≡ by_border t border inner }
{
    if is_border(t) { border } else { inner }
}

// Whether n and m are at most their maxima, and buffers of these lengths can hold them.
fn can_hold(
    n: u32,
    m: u32,
    columns: u32,
    list: usize,
    v2e: usize,
    e2e: usize,
    points: usize,
    work: usize,
) -> bool
    requires { (columns ≡ 3) ⊎ (columns ≡ 4) }
    ensures { result ≡ holds_by n m columns list v2e e2e points work }
{
    counts_fit(n, m) && 3 * wide(n) <= points && has_room(n, m, columns, list, v2e, e2e, work)
}

// What is written of, where nothing refuses: the entry of the side in E2e, its partner or a border half-edge, and the new m.
#[derive(Clone, Copy)]
struct Allowed {
    opposed: u32,
    elements: u32,
}

// What follows the trial of the old list, with k border half-edges, and comes before anything is written: 11, 15, 19 and, by the new k, 9.
fn admit(
    n: u32,
    m: u32,
    columns: u32,
    k: u32,
    list: &[u32],
    v2e: &[u32],
    e2e: &[u32],
    b2e: &[u32],
    points: &[f64],
    work: &[u32],
    code: u32,
) -> Result<Allowed, Refusal>
    requires { Admissible n m columns k list.now work.now }
    ensures { Admitted (lent_edit n m list.now v2e.now e2e.now b2e.now work.now) points.now code (allowed_numbers result) }
{
    let vertices = wide(n);
    let rows = 4 * wide(m);
    let held = &list[0..rows];
    if !is_there(held, k, code) {
        return Err(Refusal::of(Reason::Absent));
    }
    if !is_splittable(vertices, held, work, code) {
        return Err(Refusal::of(Reason::Uneditable));
    }
    let t = entry_of(vertices, held, work, code);
    let elements = by_border(t, m + 1, m + 2);
    if !can_hold(
        n + 1,
        elements,
        columns,
        list.len(),
        v2e.len(),
        e2e.len(),
        points.len(),
        work.len(),
    ) {
        return Err(Refusal::of(Reason::Full));
    }
    let borders = by_border(t, k + 1, k);
    if b2e.len() < wide(borders) {
        return Err(Refusal::at(Reason::Borders, borders, 0));
    }
    Ok(Allowed {
        opposed: t,
        elements,
    })
}

// The new list, its tables, the midpoint and the new n and m are written; t is the entry of s in E2e, and `elements` the new m.
fn write(
    size: &mut [u32; 2],
    elements: u32,
    columns: u32,
    list: &mut [u32],
    v2e: &mut [u32],
    e2e: &mut [u32],
    b2e: &mut [u32],
    points: &mut [f64],
    work: &mut [u32],
    s: u32,
    t: u32,
) -> Answer
    requires to_write { ToWrite (lent_sized size.old list.old v2e.old e2e.old b2e.old work.old) points.old s t elements }
    requires columns_value { columns ≡ columns_in (take (4 * get_or size.old 1 0) list.old) }
    ensures written { Written (lent_sized size.old list.old v2e.old e2e.old b2e.old []) points.old s (numbers result) (lent_sized size.new list.new v2e.new e2e.new b2e.new []) points.new }
    ensures work_len_unchanged { length work.new ≡ length work.old }
{
    let n = size[0];
    let m = size[1];
    let v = n + 1;
    let a = origin_of(list, s);
    let b = destination_of(list, s);
    place_midpoint(points, n, a, b);
    split_rows(m, list, s, t, v);
    *size = [v, elements];
    build_front(v, elements, columns, list, v2e, e2e, b2e, work)
}

// All that follows checks 1 and 2. The work buffer isn't cleared yet.
fn split_fit(
    size: &mut [u32; 2],
    columns: u32,
    list: &mut [u32],
    v2e: &mut [u32],
    e2e: &mut [u32],
    b2e: &mut [u32],
    points: &mut [f64],
    work: &mut [u32],
    code: u32,
) -> Answer
    requires { Ready (lent_sized size.old list.old v2e.old e2e.old b2e.old work.old) columns }
    ensures outcome { Outcome (lent_sized size.old list.old v2e.old e2e.old b2e.old work.old) points.old code (numbers result) (lent_sized size.new list.new v2e.new e2e.new b2e.new []) points.new }
    ensures work_len_unchanged { length work.new ≡ length work.old }
{
    let n = size[0];
    let m = size[1];
    let rows = 4 * wide(m);
    let k = tabulate_front(n, &list[0..rows], work)?.first;
    let allowed = admit(n, m, columns, k, list, v2e, e2e, b2e, points, work, code)?;
    write(
        size,
        allowed.elements,
        columns,
        list,
        v2e,
        e2e,
        b2e,
        points,
        work,
        code,
        allowed.opposed,
    )
}

// The list with a new vertex on the side of this code, its tables and the vertex's point, with k and the number of edges; or a refusal, which
// leaves all of them as they were. `size` holds n and m. The work buffer is all zero afterwards, but after refusals 1 and 2, which leave it as it
// was.
pub fn split(
    size: &mut [u32; 2],
    list: &mut [u32],
    v2e: &mut [u32],
    e2e: &mut [u32],
    b2e: &mut [u32],
    points: &mut [f64],
    work: &mut [u32],
    code: u32,
) -> Answer
    ensures result_value { numbers result ≡ split_answer (lent_sized size.old list.old v2e.old e2e.old b2e.old work.old) points.old code }
    ensures work_after { lent_sized size.new list.new v2e.new e2e.new b2e.new work.new ≡ split_leaves (lent_sized size.old list.old v2e.old e2e.old b2e.old work.old) points.old code }
    ensures points_after { points.new ≡ split_points (lent_sized size.old list.old v2e.old e2e.old b2e.old work.old) points.old code }
{
    let n = size[0];
    let m = size[1];
    let has_points = 3 * wide(n) <= points.len();
    let columns = check_lent(n, m, has_points, list, v2e.len(), e2e.len(), work.len())?;
    let a = split_fit(size, columns, list, v2e, e2e, b2e, points, work, code);
    clear(work);
    a
}
