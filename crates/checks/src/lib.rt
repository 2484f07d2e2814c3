// Checks 6 and 7 over a list of fit rows, by what the sibling map tells, and the least side of each vertex.
// n, list and work stay parameters: work is lent as a `&mut` too, and a struct would owe a clause in each function that it holds the same reference.
// Side 0 is none: these are the very numbers of the rules' `crowded_side` and `alike_side`.
#![tactic(auto)]

ghost use Rattle.std.specs.Prelude.{◌≡◌, ◌+◌, ◌≤◌, ◌<◌, length};
ghost use Rattle.lists.specs.Search.{at};
ghost use Rattle.lists.specs.Stores.{Kept};
ghost use Rattle.lists.specs.TestLaws.{Means};
ghost use Rattle.rules.specs.Refusals.{gives, crowded_side, alike_side};
ghost use Rattle.theory.specs.FitRows.{Fit};
ghost use Rattle.checks.specs.Firsts.{FirstsFrom, Firsts};
ghost use Rattle.answer.specs.Numbers.{checked};
ghost use Rattle.checks.specs.Maps.{Mapped, CrowdedAt, AlikeAt};
ghost use Rattle.checks.specs.Pairs.{pair_checks};

use answer::{Reason, Refusal};
use buffers::clear_first;
use halfedge::{code_at, row, slot_of, wide};
use sides::origin_of;

// The side that begins at place p is the least so far of its origin x; where x is 0 no side begins there.
fn put_first(n: usize, list: &[u32], work: &mut [u32], p: usize, x: u32)
    requires { Fit n list.now × (n ≤ length work.old) × (p < length list.now) × (x ≡ at list.now p) × FirstsFrom n list.now (p + 1) work.old }
    ensures { Kept n work.old work.new × FirstsFrom n list.now p work.new }
{
    if x != 0 {
        work[wide(x) - 1] = code_at(p);
    }
}

// A row is read at once and put from its last corner: tried with one place of the list at a time, which took half as long again.
fn put_row(n: usize, list: &[u32], work: &mut [u32], a: usize)
    requires { Fit n list.now × (n ≤ length work.old) × (a + 4 ≤ length list.now) × FirstsFrom n list.now (a + 4) work.old }
    ensures { Kept n work.old work.new × FirstsFrom n list.now a work.new }
{
    let e = a + 4;
    let corners = row(&list[a..e]);
    put_first(n, list, work, a + 3, corners[3]);
    put_first(n, list, work, a + 2, corners[2]);
    put_first(n, list, work, a + 1, corners[1]);
    put_first(n, list, work, a, corners[0]);
}

// At each vertex the least side with that origin; 0 where there is none.
pub fn first_sides(n: usize, list: &[u32], work: &mut [u32])
    requires { Fit n list.now × (n ≤ length work.old) }
    ensures { Kept n work.old work.new × Firsts n list.now work.new }
{
    clear_first(n, work);
    for f in (0..list.len() / 4).rev() {
        put_row(n, list, work, 4 * f);
    }
}

// Three or more sides join the vertices of the side that begins at place p.
fn is_crowded(n: usize, list: &[u32], work: &[u32], p: usize) -> bool
    requires { Mapped n list.now work.now × (p < length list.now) }
    ensures { Means result (CrowdedAt list.now p) }
{
    let t = work[n + p];
    t != 0 && work[n + slot_of(t)] != code_at(p)
}

// Check 6: the least side whose two vertices three or more sides join; 0 where there is none.
// Kept apart from alike_side: each is a `find` with a test of its own, under a definition of its own.
fn crowded_side(n: usize, list: &[u32], work: &[u32]) -> u32
    requires { Mapped n list.now work.now }
    ensures { result ≡ crowded_side list.now }
{
    match (0..list.len()).find(|p| is_crowded(n, list, work, *p)) {
        Some(p) => code_at(p),
        None => 0,
    }
}

// Another side runs alike with the side that begins at place p.
fn is_alike(n: usize, list: &[u32], work: &[u32], p: usize) -> bool
    requires { Mapped n list.now work.now × (p < length list.now) }
    ensures { Means result (AlikeAt list.now p) }
{
    let t = work[n + p];
    if t == 0 {
        return false;
    }
    let s = code_at(p);
    t != s && origin_of(list, t) == origin_of(list, s)
}

// Check 7, where check 6 found nothing: the least side that another one runs alike with; 0 where there is none.
fn alike_side(n: usize, list: &[u32], work: &[u32]) -> u32
    requires { Mapped n list.now work.now × (crowded_side list.now ≡ 0) }
    ensures { result ≡ alike_side list.now }
{
    match (0..list.len()).find(|p| is_alike(n, list, work, *p)) {
        Some(p) => code_at(p),
        None => 0,
    }
}

// Checks 6 and 7, told whether no two sides run alike: of three sides at an edge two do, so only where two do can either find something.
pub fn check_pairs(n: usize, list: &[u32], work: &[u32], paired: bool) -> Result<(), Refusal>
    requires { Mapped n list.now work.now × Means paired (alike_side list.now ≡ 0) }
    ensures { checked result ≡ pair_checks list.now (gives 0 0) }
{
    if paired {
        return Ok(());
    }
    let s = crowded_side(n, list, work);
    if s != 0 {
        return Err(Refusal::at_side(Reason::Crowded, s));
    }
    Err(Refusal::at_side(Reason::Alike, alike_side(n, list, work)))
}
