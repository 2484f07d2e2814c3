// Check 8, decided: the walk over a list's own tables meets as many sides as there are exactly where every vertex has a turn order. So it is
// enough to count, and nothing is written. Where there are fewer, the crates walk and unordered find the least vertex that has none.
// Side 0 is none, as in the rules' `walk_start` and `turn_by`.
#![tactic(auto)]

ghost use Rattle.std.specs.Prelude.{true, ◌≡◌, ◌-◌, ◌≤◌};
ghost use Rattle.lists.specs.TestLaws.{Means};
ghost use Rattle.rules.specs.Elements.{count_sides};
ghost use Rattle.rules.specs.Recovery.{turn_by};
ghost use Rattle.rules.specs.Refusals.{unordered_vertex};
ghost use Rattle.ordered.specs.Standing.{Known, Standing, MetBy};

use halfedge::{is_border, slot_of};
use sides::next_by_row;
use walk::start;

// The turn of s; 0 where s is a border side. In a list's own tables an entry is a side or a border, so one test tells which.
fn turn(e2e: &[u32], s: u32) -> u32
    requires { Known e2e.now s }
    ensures { result ≡ turn_by e2e.now s }
{
    let t = e2e[slot_of(s)];
    if is_border(t) {
        return 0;
    }
    next_by_row(e2e, t)
}

// The sides that the walk meets about v, counted on from those that it met before: from the start by turns, up to a border side or until it
// comes back. The loop follows turns.
fn count_about(n: usize, list: &[u32], work: &[u32], v: usize, met: u32) -> u32
    requires { Standing n list.now work.now × (1 ≤ v) × (v ≤ n) × MetBy n list.now (v - 1) met }
    ensures { MetBy n list.now v result }
{
    let m = list.len() / 4;
    let s = start(n, m, work, v);
    if s == 0 {
        return met;
    }
    let e = n + 4 * m;
    let mut count = met + 1;
    let mut t = turn(&work[n..e], s);
    while t != s {
        if t == 0 {
            return count;
        }
        count += 1;
        t = turn(&work[n..e], t);
    }
    count
}

// Whether the walk meets all the sides, told how many there are.
pub fn is_ordered(n: usize, list: &[u32], work: &[u32], sides: u32) -> bool
    requires { Standing n list.now work.now × (sides ≡ count_sides list.now (λ s. true)) }
    ensures { Means result (unordered_vertex n list.now ≡ 0) }
{
    let mut met = 0;
    for v in 1..=n {
        met = count_about(n, list, work, v, met);
    }
    met == sides
}
