// The part of the work buffer that the walk's start reads: for each border number the least side with that border, by an E2e of any content.
// n, m and work stay parameters: work is lent as a `&mut`, and a struct would owe a clause in each function that it holds the same reference.
// Side 0 is none, as in the rules' `walk_start`.
#![tactic(auto)]

ghost use Rattle.std.specs.Prelude.{◌+◌, ◌*◌, ◌<◌};
ghost use Rattle.walk.specs.Layout.{Sizes};
ghost use Rattle.links.specs.Links.{Linkable, Linking, LinkedBy};

use halfedge::{code_at, element_of, is_border, wide};

// Where entry p of E2e is the code of a border, the side at p is the least so far of that border.
fn link_place(n: usize, m: usize, work: &mut [u32], p: usize)
    requires { Linkable n m (p + 1) work.old × (p < 4 * m) }
    ensures { Linking n m p work.old work.new }
{
    let c = work[n + p];
    if !is_border(c) {
        return;
    }
    let b = wide(element_of(c));
    if b == 0 || 4 * m < b {
        return;
    }
    work[n + 4 * m + b - 1] = code_at(p);
}

// The places from the last to the first, over border numbers with no side yet.
fn link_places(n: usize, m: usize, work: &mut [u32])
    requires { Linkable n m (4 * m) work.old }
    ensures { Linking n m 0 work.old work.new }
{
    for p in (0..4 * m).rev() {
        link_place(n, m, work, p);
    }
}

// At each border number from 1 to 4m the least side of E2e with that border; 0 where there is none.
pub fn link(n: usize, m: usize, work: &mut [u32])
    requires { Sizes n m work.old }
    ensures { LinkedBy n m work.old work.new }
{
    let a = n + 4 * m;
    let e = n + 8 * m;
    buffers::clear(&mut work[a..e]);
    link_places(n, m, work);
}
