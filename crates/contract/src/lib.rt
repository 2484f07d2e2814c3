// An edge contracted and the gaps closed, document 02, point 8.
// The buffers are kept as parameters: with a struct of `&mut` buffers each function would owe a clause for each, that it holds the same reference.
// n and m stay an array of two, `size`: C lends them so.
#![tactic(auto)]

ghost use Rattle.std.specs.Prelude.{◌≡◌, [], ◌+◌, ◌*◌, ◌≤◌, length, take, get_or};
ghost use Rattle.lists.specs.Search.{at};
ghost use Rattle.rules.specs.Elements.{elements as elements_of, Side, slot, origin, destination};
ghost use Rattle.rules.specs.Tables.{wide as wide_of};
ghost use Rattle.rules.specs.Refusals.{after};
ghost use Rattle.edit_rules.specs.Edits.{over_old};
ghost use Rattle.edit_rules.specs.Swap.{third};
ghost use Rattle.edit_rules.specs.Contract.{merged, contracted, contract_answer, contract_leaves, contract_points};
ghost use Rattle.theory.specs.Coarsening.{beyond};
ghost use Rattle.answer.specs.Numbers.{numbers, found};
ghost use Rattle.edits.specs.Holding.{lent_sized};
ghost use Rattle.edits.specs.Fronts.{Ready};
ghost use Rattle.gaps.specs.Closing.{ToClose};
ghost use Rattle.contract.specs.Edges.{Ends};
ghost use Rattle.contract.specs.Stages.{Admissible, Admitted, Contractible, padded, Roomy, Tried, Replaced, ToWrite, Closable, Closed, Written, Outcome};

use answer::{Answer, Reason, Refusal, refuse};
use buffers::{clear, copy};
use edits::{build_front, check_lent, entry_of, is_splittable, is_there};
use gaps::{all_used, fewer, merge, rename};
use halfedge::{is_border, wide};
use pinched::is_pinched;
use points::close_point;
use sides::{destination_of, origin_of, previous_code};
use tabulate::tabulate_front;

// The edge of a side from a to b, with the third corners of the triangles on it: c, and d beyond the edge, or c again on a border.
#[derive(Clone, Copy)]
struct Edge {
    a: u32,
    b: u32,
    c: u32,
    d: u32,
}

// The corner of a triangle before the origin of its side s.
fn third_of(list: &[u32], s: u32) -> u32
    requires { Side list.now s }
    ensures { result ≡ third list.now s }
{
    origin_of(list, previous_code(list, s))
}

// The third corner beyond the edge of side s; t is its entry in E2e, its partner or a border half-edge.
fn beyond_of(list: &[u32], s: u32, t: u32) -> u32
    requires { Side list.now s × (t ≡ at (wide_of list.now) (slot s)) }
    ensures { result ≡ beyond list.now s }
{
    if is_border(t) {
        third_of(list, s)
    } else {
        third_of(list, t)
    }
}

// The edge of side s; t is its entry in E2e.
fn edge_of(list: &[u32], s: u32, t: u32) -> Edge
    requires { Side list.now s × (t ≡ at (wide_of list.now) (slot s)) }
    ensures { Ends list.now s result.a result.b result.c result.d }
{
    Edge {
        a: origin_of(list, s),
        b: destination_of(list, s),
        c: third_of(list, s),
        d: beyond_of(list, s, t),
    }
}

// What follows the trial of the old list, with k border half-edges, and comes before anything is written: 11, 15 and 20. If none is found, the
// entry of the side in E2e.
fn admit(n: u32, k: u32, list: &[u32], work: &mut [u32], code: u32) -> Result<u32, Refusal>
    requires { Admissible n k list.now work.old }
    ensures admitted { Admitted n list.now code (found result) }
    ensures work_len_unchanged { length work.new ≡ length work.old }
{
    let vertices = wide(n);
    if !is_there(list, k, code) {
        return Err(Refusal::of(Reason::Absent));
    }
    if !is_splittable(vertices, list, work, code) {
        return Err(Refusal::of(Reason::Uneditable));
    }
    let t = entry_of(vertices, list, work, code);
    let edge = edge_of(list, code, t);
    if is_pinched(n, list, work, edge.a, edge.b, edge.c, edge.d) {
        return Err(Refusal::of(Reason::Pinched));
    }
    Ok(t)
}

// What stands between the new length and the old one becomes 0.
fn clear_between(new: usize, old: usize, out: &mut [u32])
    requires { (new ≤ old) × (old ≤ length out.old) }
    ensures { out.new ≡ over_old old (take new out.old) out.old }
{
    clear(&mut out[new..old]);
}

// The triangles on the edge of side s, from a to b, go, and every b becomes a; 0 where the last rows stood. The list holds m rows.
fn merge_ends(m: u32, list: &mut [u32], s: u32, t: u32, a: u32, b: u32)
    requires to_close { ToClose m list.old s t × (a ≡ origin (take (4 * m) list.old) s) × (b ≡ destination (take (4 * m) list.old) s) }
    requires list_len { length list.old ≡ 4 * m }
    ensures { list.new ≡ padded (length list.old) (merged list.old s) }
{
    merge(m, list, s, t, a, b);
    let rows = 4 * wide(fewer(m, t));
    let old = list.len();
    clear_between(rows, old, list);
}

// The list becomes the new one; 21, and then what build says of it and writes.
fn replace(
    n: u32,
    m: u32,
    columns: u32,
    list: &mut [u32],
    v2e: &mut [u32],
    e2e: &mut [u32],
    b2e: &mut [u32],
    work: &mut [u32],
    s: u32,
    t: u32,
    edge: Edge,
) -> Answer
    requires contractible { Contractible n list.old s t × (m ≡ elements_of list.old) × Ends list.old s edge.a edge.b edge.c edge.d }
    requires roomy { Roomy n columns list.old v2e.old e2e.old × (n + 12 * m ≤ length work.old) }
    ensures tried { Tried n list.old s (numbers result) v2e.old e2e.old b2e.old v2e.new e2e.new b2e.new × Replaced n list.old s (numbers result) list.new }
    ensures work_len_unchanged { length work.new ≡ length work.old }
{
    merge_ends(m, list, s, t, edge.a, edge.b);
    let left = fewer(m, t);
    let rows = 4 * wide(left);
    if !all_used(&list[0..rows], edge.a, edge.c, edge.d) {
        return refuse(Reason::Stranded);
    }
    rename(n, edge.b, &mut list[0..rows]);
    build_front(n - 1, left, columns, list, v2e, e2e, b2e, work)
}

// The new list is tried, and its tables written; the old one is kept in the last words of the work buffer, and put back where the new one is
// refused.
fn try_new(
    n: u32,
    m: u32,
    columns: u32,
    list: &mut [u32],
    v2e: &mut [u32],
    e2e: &mut [u32],
    b2e: &mut [u32],
    work: &mut [u32],
    s: u32,
    t: u32,
    edge: Edge,
) -> Answer
    requires contractible { Contractible n list.old s t × (m ≡ elements_of list.old) × Ends list.old s edge.a edge.b edge.c edge.d }
    requires roomy { Roomy n columns list.old v2e.old e2e.old × (n + 16 * m ≤ length work.old) }
    ensures tried { Tried n list.old s (numbers result) v2e.old e2e.old b2e.old v2e.new e2e.new b2e.new × (list.new ≡ after (numbers result) (padded (length list.old) (contracted n list.old s)) list.old) }
    ensures work_len_unchanged { length work.new ≡ length work.old }
{
    let end = wide(n) + 12 * wide(m);
    let last = end + list.len();
    copy(list, &mut work[end..]);
    let a = replace(
        n,
        m,
        columns,
        list,
        v2e,
        e2e,
        b2e,
        &mut work[0..end],
        s,
        t,
        edge,
    );
    let Ok(built) = a else {
        copy(&work[end..last], list);
        return a;
    };
    Ok(built)
}

// n falls by one, and m to `elements`: what stood in V2e and E2e between the new lengths and the old ones becomes 0, and the point of the last
// vertex goes to b.
fn close(
    size: &mut [u32; 2],
    elements: u32,
    columns: u32,
    v2e: &mut [u32],
    e2e: &mut [u32],
    points: &mut [f64],
    b: u32,
)
    requires { Closable (get_or size.old 0 0) (get_or size.old 1 0) elements columns b v2e.old e2e.old points.old }
    ensures { Closed (get_or size.old 0 0) (get_or size.old 1 0) elements columns b v2e.old e2e.old points.old size.new v2e.new e2e.new points.new }
{
    let n = size[0];
    let m = size[1];
    let c = wide(columns);
    clear_between(wide(n - 1), wide(n), v2e);
    clear_between(c * wide(elements), c * wide(m), e2e);
    close_point(points, n, b);
    *size = [n - 1, elements];
}

// The new list and its tables, points, n and m are written, or what was there stays; t is the entry of s in E2e.
fn write(
    size: &mut [u32; 2],
    columns: u32,
    list: &mut [u32],
    v2e: &mut [u32],
    e2e: &mut [u32],
    b2e: &mut [u32],
    points: &mut [f64],
    work: &mut [u32],
    s: u32,
    t: u32,
) -> Answer
    requires { ToWrite (lent_sized size.old list.old v2e.old e2e.old b2e.old work.old) points.old s t columns }
    ensures written { Written (lent_sized size.old list.old v2e.old e2e.old b2e.old []) points.old s (numbers result) (lent_sized size.new list.new v2e.new e2e.new b2e.new []) points.new }
    ensures work_len_unchanged { length work.new ≡ length work.old }
{
    let n = size[0];
    let m = size[1];
    let rows = 4 * wide(m);
    let edge = edge_of(&list[0..rows], s, t);
    let b = edge.b;
    let built = try_new(
        n,
        m,
        columns,
        &mut list[0..rows],
        v2e,
        e2e,
        b2e,
        work,
        s,
        t,
        edge,
    )?;
    close(size, fewer(m, t), columns, v2e, e2e, points, b);
    Ok(built)
}

// All that follows checks 1 and 2. The work buffer isn't cleared yet.
fn contract_fit(
    size: &mut [u32; 2],
    columns: u32,
    list: &mut [u32],
    v2e: &mut [u32],
    e2e: &mut [u32],
    b2e: &mut [u32],
    points: &mut [f64],
    work: &mut [u32],
    code: u32,
) -> Answer
    requires { Ready (lent_sized size.old list.old v2e.old e2e.old b2e.old work.old) columns × (3 * get_or size.old 0 0 ≤ length points.old) }
    ensures outcome { Outcome (lent_sized size.old list.old v2e.old e2e.old b2e.old work.old) points.old code (numbers result) (lent_sized size.new list.new v2e.new e2e.new b2e.new []) points.new }
    ensures work_len_unchanged { length work.new ≡ length work.old }
{
    let n = size[0];
    let m = size[1];
    let rows = 4 * wide(m);
    let k = tabulate_front(n, &list[0..rows], work)?.first;
    let t = admit(n, k, &list[0..rows], work, code)?;
    write(size, columns, list, v2e, e2e, b2e, points, work, code, t)
}

// The list with the edge of this code contracted, its tables and points, with k and the number of edges; or a refusal, which leaves all of them
// as they were. `size` holds n and m. The work buffer is all zero afterwards, but after refusals 1 and 2, which leave it as it was.
// Kept beside split's, which has the same four steps: the buffers are lent to both one by one, and edits has what they share.
pub fn contract(
    size: &mut [u32; 2],
    list: &mut [u32],
    v2e: &mut [u32],
    e2e: &mut [u32],
    b2e: &mut [u32],
    points: &mut [f64],
    work: &mut [u32],
    code: u32,
) -> Answer
    ensures result_value { numbers result ≡ contract_answer (lent_sized size.old list.old v2e.old e2e.old b2e.old work.old) points.old code }
    ensures work_after { lent_sized size.new list.new v2e.new e2e.new b2e.new work.new ≡ contract_leaves (lent_sized size.old list.old v2e.old e2e.old b2e.old work.old) points.old code }
    ensures points_after { points.new ≡ contract_points (lent_sized size.old list.old v2e.old e2e.old b2e.old work.old) points.old code }
{
    let n = size[0];
    let m = size[1];
    let has_points = 3 * wide(n) <= points.len();
    let columns = check_lent(n, m, has_points, list, v2e.len(), e2e.len(), work.len())?;
    let a = contract_fit(size, columns, list, v2e, e2e, b2e, points, work, code);
    clear(work);
    a
}
