// Building: an element list to V2e, E2e and B2e.
// The buffers are kept as parameters: with a struct of `&mut` buffers each function would owe a clause for each, that it holds the same reference.
#![tactic(auto)]

ghost use Rattle.std.specs.Prelude.{◌≡◌, ◌⊎◌, ◌+◌, ◌*◌, ◌≤◌, length};
ghost use Rattle.rules.specs.Elements.{max_vertex, max_element};
ghost use Rattle.rules.specs.Tables.{columns as columns_in};
ghost use Rattle.rules.specs.Refusals.{build_answer, build_leaves};
ghost use Rattle.answer.specs.Numbers.{numbers};
ghost use Rattle.build.specs.Building.{Built, Checked, Copied, lent};

use answer::{Answer, Reason, refuse, refuse_at};
use buffers::{clear, copy};
use columns::{columns_of, put};
use halfedge::wide;
use lengths::{lengths_fit, sizes_fit};
use tabulate::tabulate_front;

// The tables are copied out of the work buffer, E2e in its own columns.
fn commit(
    n: usize,
    columns: u32,
    m: usize,
    k: usize,
    v2e: &mut [u32],
    e2e: &mut [u32],
    b2e: &mut [u32],
    work: &[u32],
)
    requires k_in_bounds { (n + 4 * m + k ≤ length work.now) × (length v2e.old ≡ n) × (length e2e.old ≡ columns * m) × (k ≤ length b2e.old) }
    requires n_le_max_vertex { (n ≤ max_vertex) × (m ≤ max_element) × ((columns ≡ 3) ⊎ (columns ≡ 4)) }
    ensures { Copied n columns m k work.now b2e.old v2e.new e2e.new b2e.new }
{
    let a = n + 4 * m;
    let e = a + k;
    copy(&work[0..n], v2e);
    put(columns, &work[n..a], e2e);
    copy(&work[a..e], b2e);
}

// Checks 3 to 9 and the tables, where the lengths are fit. The work buffer isn't cleared yet.
pub fn build_fit(
    n: u32,
    columns: u32,
    list: &[u32],
    v2e: &mut [u32],
    e2e: &mut [u32],
    b2e: &mut [u32],
    work: &mut [u32],
) -> Answer
    requires { Checked n list.now v2e.old e2e.old work.old × (columns ≡ columns_in list.now) }
    ensures built { Built n list.now (numbers result) v2e.old e2e.old b2e.old v2e.new e2e.new b2e.new }
    ensures work_len_unchanged { length work.new ≡ length work.old }
{
    let m = list.len() / 4;
    let vertices = wide(n);
    let t = tabulate_front(n, list, work)?;
    let k = wide(t.first);
    if b2e.len() < k {
        return refuse_at(Reason::Borders, t.first, 0);
    }
    commit(vertices, columns, m, k, v2e, e2e, b2e, work);
    Ok(t)
}

// V2e, E2e and the first k entries of B2e of the list, with k and the number of edges; or a refusal, which leaves the tables as they
// were. The work buffer is all zero afterwards, but after refusals 1 and 2, which leave it as it was.
pub fn build(
    n: u32,
    list: &[u32],
    v2e: &mut [u32],
    e2e: &mut [u32],
    b2e: &mut [u32],
    work: &mut [u32],
) -> Answer
    ensures result_value { numbers result ≡ build_answer n list.now (lent v2e.old e2e.old b2e.old work.old) }
    ensures work_after { lent v2e.new e2e.new b2e.new work.new ≡ build_leaves n list.now (lent v2e.old e2e.old b2e.old work.old) }
{
    let m = list.len() / 4;
    if !sizes_fit(n, m, list.len()) {
        return refuse(Reason::Sizes);
    }
    let columns = columns_of(list);
    let opposites = e2e.len() == wide(columns) * m;
    if !lengths_fit(n, m, opposites, v2e.len(), work.len()) {
        return refuse(Reason::Lengths);
    }
    let a = build_fit(n, columns, list, v2e, e2e, b2e, work);
    clear(work);
    a
}
