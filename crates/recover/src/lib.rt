// Recovery: V2e and E2e back to the element list.
// The buffers are kept as parameters: with a struct of `&mut` buffers each function would owe a clause for each, that it holds the same reference.
#![tactic(auto)]

ghost use Rattle.std.specs.Prelude.{◌⊎◌, ◌≡◌, ◌+◌, ◌*◌, ◌≤◌, eqb, length, take};
ghost use Rattle.lists.specs.Parts.{part};
ghost use Rattle.lists.specs.Tests.{both, either};
ghost use Rattle.rules.specs.Elements.{elements, max_element};
ghost use Rattle.theory.specs.Columns.{narrowed};
ghost use Rattle.answer.specs.Numbers.{numbers};
ghost use Rattle.rules.specs.Refusals.{recover_answer, recover_list, recover_work};
ghost use Rattle.tabulate.specs.Results.{Sized};
ghost use Rattle.walk.specs.Layout.{Sizes};
ghost use Rattle.recover.specs.Faults.{agree, OwnTables};
ghost use Rattle.recover.specs.Recovering.{EitherLong, Filled, Walked, Roomy, Proposed, ToTry, Tried, Passed, Recovered};

use answer::Answer;
use halfedge::wide;

// V2e and E2e, in four columns, at the front of the scratch buffer.
fn fill(n: usize, m: usize, v2e: &[u32], e2e: &[u32], work: &mut [u32])
    requires { (length v2e.now ≡ n) × (n + 4 * m ≤ length work.old) × EitherLong m e2e.now }
    ensures { Filled n m v2e.now e2e.now work.old work.new }
{
    let end = n + 4 * m;
    buffers::copy(v2e, work);
    columns::spread(m, e2e, &mut work[n..end]);
}

// The list that the walk over the tables gives, at the end of the scratch buffer.
fn walk_tables(n: usize, m: usize, v2e: &[u32], e2e: &[u32], work: &mut [u32])
    requires { Sizes n m work.old × (length v2e.now ≡ n) × EitherLong m e2e.now }
    ensures { Walked n m v2e.now e2e.now work.old work.new }
{
    fill(n, m, v2e, e2e, work);
    links::link(n, m, work);
    walk::walk(n, m, work);
}

// The tables in the scratch buffer, E2e in this many columns, are those given.
fn is_theirs(n: usize, m: usize, columns: u32, v2e: &[u32], e2e: &[u32], work: &[u32]) -> bool
    requires { (n + 4 * m ≤ length work.now) × ((columns ≡ 3) ⊎ (columns ≡ 4)) }
    ensures { result ≡ agree (take n work.now) (narrowed columns (part n (4 * m) work.now)) v2e.now e2e.now }
{
    let end = n + 4 * m;
    buffers::is_same(&work[0..n], v2e) && columns::is_put(columns, &work[n..end], e2e)
}

// The list that the walk gives is put into `list`; the list that was there is kept behind the scratch buffer.
fn propose(n: usize, m: usize, v2e: &[u32], e2e: &[u32], list: &mut [u32], work: &mut [u32])
    requires { Roomy n m v2e.now e2e.now list.old work.old }
    ensures { Proposed n m v2e.now e2e.now list.old work.old list.new work.new }
{
    let o = n + 8 * m;
    let end = n + 12 * m;
    walk_tables(n, m, v2e, e2e, &mut work[0..end]);
    buffers::copy(list, &mut work[end..]);
    buffers::copy(&work[o..end], list);
}

// Checks 3 to 7 and 18 find nothing in the list; its tables are put into the scratch buffer.
fn has_own_tables(n: u32, list: &[u32], work: &mut [u32]) -> bool
    requires { Sized n list.now work.old }
    ensures { OwnTables n list.now result work.old work.new }
{
    let Ok(f) = tabulate::pair(n, list, work) else {
        return false;
    };
    if f != 0 {
        return false;
    }
    borders::number_borders(wide(n), list, work);
    true
}

// The list that was proposed is accepted and has the given tables. Check 8 needs no look: the walk over the given tables wrote this very
// list, so where they are its own, no side of a vertex is left out.
fn has_tables(n: u32, v2e: &[u32], e2e: &[u32], list: &[u32], work: &mut [u32]) -> bool
    requires { ToTry n v2e.now e2e.now list.now work.old }
    ensures { Tried n (elements list.now) v2e.now e2e.now result work.old work.new }
{
    let m = list.len() / 4;
    let end = wide(n) + 12 * m;
    if !has_own_tables(n, list, &mut work[0..end]) {
        return false;
    }
    let columns = columns::columns_of(list);
    is_theirs(wide(n), m, columns, v2e, e2e, work)
}

// Check 10, where the lengths are fit. The work buffer isn't cleared yet.
fn recover_fit(
    n: u32,
    m: usize,
    v2e: &[u32],
    e2e: &[u32],
    list: &mut [u32],
    work: &mut [u32],
) -> Answer
    requires { Passed n m v2e.now e2e.now list.old work.old }
    ensures recovered { Recovered n m v2e.now e2e.now (numbers result) list.old list.new }
    ensures work_len_unchanged { length work.new ≡ length work.old }
{
    propose(wide(n), m, v2e, e2e, list, work);
    if has_tables(n, v2e, e2e, list, work) {
        return answer::give(0);
    }
    let a = wide(n) + 12 * m;
    let e = a + 4 * m;
    buffers::copy(&work[a..e], list);
    answer::refuse(answer::Reason::NoList)
}

// Check 2 of the element list, and of E2e, which has three columns or four.
fn tables_fit(m: usize, list: usize, e2e: usize) -> bool
    requires { m ≤ max_element }
    ensures { result ≡ both (eqb list (4 * m)) (either (eqb e2e (3 * m)) (eqb e2e (4 * m))) }
{
    list == 4 * m && (e2e == 3 * m || e2e == 4 * m)
}

// The accepted list of m elements that has exactly these tables; or 10 where none has, which leaves the element list as it was. The work
// buffer is all zero afterwards, but after refusals 1 and 2, which leave it as it was.
pub fn recover(
    n: u32,
    m: u32,
    v2e: &[u32],
    e2e: &[u32],
    list: &mut [u32],
    work: &mut [u32],
) -> Answer
    ensures result_value { numbers result ≡ recover_answer n m v2e.now e2e.now list.old work.old }
    ensures list_after { list.new ≡ recover_list n m v2e.now e2e.now list.old work.old }
    ensures work_after { work.new ≡ recover_work n m v2e.now e2e.now list.old work.old }
{
    let rows = wide(m);
    if !lengths::sizes_fit(n, rows, list.len()) {
        return answer::refuse(answer::Reason::Sizes);
    }
    let others = tables_fit(rows, list.len(), e2e.len());
    if !lengths::lengths_fit(n, rows, others, v2e.len(), work.len()) {
        return answer::refuse(answer::Reason::Lengths);
    }
    let a = recover_fit(n, rows, v2e, e2e, list, work);
    buffers::clear(work);
    a
}
