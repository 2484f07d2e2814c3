// Checks 3 to 8 and 18 and the three tables of a list, in a scratch buffer of n + 12m entries; nothing else is written. Whether checks 6, 7
// and 8 find something is decided first, and only then is the place looked for.
// Element 0 and vertex 0 are none, as in the rules' `clashing` and `unordered_vertex`.
#![tactic(auto)]

ghost use Rattle.std.specs.Prelude.{◌≡◌, ◌+◌, ◌*◌, length};
ghost use Rattle.rules.specs.Elements.{elements};
ghost use Rattle.rules.specs.Refusals.{clashing, unordered_vertex, list_answer};
ghost use Rattle.theory.specs.FitRows.{Fit};
ghost use Rattle.answer.specs.Numbers.{numbers, found};
ghost use Rattle.borders.specs.Numbers.{Ready};
ghost use Rattle.ordered.specs.Standing.{Standing};
ghost use Rattle.tabulate.specs.Results.{Sized, fit_pairs, list_pairs, Paired, paired_answer, Tabulated, Roomy, Scratched};

use answer::{Answer, Reason, Refusal, give_two, refuse_at};
use borders::number_borders;
use checks::{check_pairs, first_sides};
use corners::check_rows;
use halfedge::wide;
use meeting::{clash_of, clashing_element};
use ordered::is_ordered;
use siblings::siblings;
use unordered::unordered_vertex;
use walk::walk;

// Checks 6 and 7, where checks 3 and 4 found nothing, and what `pair` gives and leaves.
fn pair_fit(n: u32, list: &[u32], work: &mut [u32]) -> Result<u32, Refusal>
    requires { Fit n list.now × (length work.old ≡ n + 12 * elements list.now) }
    ensures { Paired n list.now (fit_pairs list.now) (found result) work.old work.new }
{
    let vertices = wide(n);
    let found = siblings(vertices, list, work);
    check_pairs(vertices, list, work, found.paired)?;
    let f = clashing_element(vertices, list, work, found.crossed);
    first_sides(vertices, list, work);
    Ok(f)
}

// Checks 3 to 7. Where they find nothing it gives the least element that doesn't meet another well, 0 where there is none, and leaves the
// siblings and each vertex's least side, from which `number_borders` makes the tables.
pub fn pair(n: u32, list: &[u32], work: &mut [u32]) -> Result<u32, Refusal>
    requires { Sized n list.now work.old }
    ensures { Paired n list.now (list_pairs n list.now) (found result) work.old work.new }
{
    check_rows(n, list)?;
    pair_fit(n, list, work)
}

// The least vertex without a turn order, by what the walk over the tables leaves out.
fn unordered(n: u32, list: &[u32], work: &mut [u32]) -> u32
    requires { Standing n list.now work.old }
    ensures { (result ≡ unordered_vertex n list.now) × (length work.new ≡ length work.old) }
{
    let m = list.len() / 4;
    let vertices = wide(n);
    walk(vertices, m, work);
    unordered_vertex(n, vertices + 8 * m, list, work)
}

// The tables and checks 8 and 18, where checks 3 to 7 found nothing; f is the element that 18 finds, or 0.
fn tabulate_paired(n: u32, list: &[u32], work: &mut [u32], f: u32) -> Answer
    requires { Ready n list.now work.old × (f ≡ clashing list.now) }
    ensures { Tabulated n list.now (paired_answer n list.now) (numbers result) work.old work.new }
{
    let vertices = wide(n);
    let counts = number_borders(vertices, list, work);
    let k = counts.borders;
    let sides = counts.sides;
    if !is_ordered(vertices, list, work, sides) {
        return refuse_at(Reason::Unordered, unordered(n, list, work), 0);
    }
    if f != 0 {
        return refuse_at(Reason::Clash, f, clash_of(list, f));
    }
    give_two(k, (sides + k) / 2)
}

pub fn tabulate(n: u32, list: &[u32], work: &mut [u32]) -> Answer
    requires { Sized n list.now work.old }
    ensures { Tabulated n list.now (list_answer n list.now) (numbers result) work.old work.new }
{
    let f = pair(n, list, work)?;
    tabulate_paired(n, list, work, f)
}

// The same in the front of a buffer that may be longer, where the tables are left.
pub fn tabulate_front(n: u32, list: &[u32], work: &mut [u32]) -> Answer
    requires { Roomy n list.now work.old }
    ensures { Scratched n list.now (numbers result) work.old work.new }
{
    let end = wide(n) + 12 * (list.len() / 4);
    tabulate(n, list, &mut work[0..end])
}
