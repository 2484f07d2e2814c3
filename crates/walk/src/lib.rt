// The walk over a V2e and an E2e of any content, in a work buffer of n + 12m entries: V2e (n), E2e (4m), for each border number the least
// side with that border (4m), and what the walk writes (4m).
// n, m and work stay parameters: work is lent as a `&mut`, and a struct would owe a clause in each function that it holds the same reference.
// Side 0 is none, as in the rules' `walk_start`.
#![tactic(auto)]

ghost use Rattle.std.specs.Prelude.{◌≡◌, ◌+◌, ◌*◌, ◌-◌, ◌≤◌, ◌<◌};
ghost use Rattle.lists.specs.Search.{at};
ghost use Rattle.rules.specs.Elements.{Side};
ghost use Rattle.rules.specs.Recovery.{walk_start, turn_by};
ghost use Rattle.walk.specs.Steps.{side_of};
ghost use Rattle.walk.specs.Layout.{Sizes, written, e2e_in, is_open, Linked, Traced, Walking};

use halfedge::{element_of, is_border, slot_of, wide};
use sides::{is_side, next_by_row, next_code};

// The turn of s by E2e, where it has one.
fn turn(e2e: &[u32], s: u32) -> Option<u32>
    requires { Side e2e.now s }
    ensures { side_of result ≡ turn_by e2e.now s }
{
    let t = e2e[slot_of(s)];
    if is_side(e2e, t) {
        Some(next_by_row(e2e, t))
    } else {
        None
    }
}

// The side where the walk about v begins; 0 where there is none.
pub fn start(n: usize, m: usize, work: &[u32], v: usize) -> u32
    requires { Sizes n m work.now × Linked n m work.now × (1 ≤ v) × (v ≤ n) }
    ensures { result ≡ walk_start (e2e_in n m work.now) (at work.now (v - 1)) }
{
    let c = work[v - 1];
    if !is_border(c) {
        return c;
    }
    let b = wide(element_of(c));
    if b == 0 || 4 * m < b {
        return 0;
    }
    let e = n + 4 * m;
    let s = work[e + b - 1];
    if s == 0 {
        return 0;
    }
    next_code(&work[n..e], s)
}

// A side whose place is still empty.
fn is_open(n: usize, m: usize, work: &[u32], s: u32) -> bool
    requires { Sizes n m work.now }
    ensures { result ≡ is_open (e2e_in n m work.now) (written n m work.now) s }
{
    let e = n + 4 * m;
    is_side(&work[n..e], s) && work[n + 8 * m + slot_of(s)] == 0
}

// From the side s on by turns, v is written at the place of each side. The loop follows turns and counts nothing.
fn trace(n: usize, m: usize, v: u32, s: u32, work: &mut [u32])
    requires { Sizes n m work.old × (1 ≤ v) }
    ensures { Traced n m v s work.old work.new }
{
    let e = n + 4 * m;
    let mut t = s;
    while is_open(n, m, work, t) {
        let p = n + 8 * m + slot_of(t);
        work[p] = v;
        let Some(next) = turn(&work[n..e], t) else {
            return;
        };
        t = next;
    }
}

// The vertices one after another, over places that are empty at first.
fn walk_empty(n: usize, m: usize, work: &mut [u32])
    requires { Sizes n m work.old × Linked n m work.old × Walking n m 0 work.old work.old }
    ensures { Walking n m n work.old work.new }
{
    for v in 1..=n {
        let s = start(n, m, work, v);
        trace(n, m, v as u32, s, work);
    }
}

pub fn walk(n: usize, m: usize, work: &mut [u32])
    requires { Sizes n m work.old × Linked n m work.old }
    ensures { Walking n m n work.old work.new }
{
    let a = n + 8 * m;
    buffers::clear(&mut work[a..]);
    walk_empty(n, m, work);
}
