// The holes of a mesh, document 02, point 11: for each border half-edge the number of its hole, and for each hole its length.
//
// The work holds an entry for each of the k border half-edges, and then the length of each hole. Next of all is read first, in order: next
// of x as k + next. Then border half-edges are gone over in order; from one that has no number yet its loop is followed, and the number of
// the hole takes the place of next. A loop that meets a number elsewhere than at its start runs into another loop, or into its own middle,
// and never comes back. So the tables are read in the order of the border half-edges, and along a loop only the work.
#![tactic(auto)]

ghost use Rattle.std.specs.Prelude.{◌≡◌, ◌+◌, ◌*◌, ◌-◌, ◌≤◌, leb, is_some, length};
ghost use Rattle.lists.specs.Parts.{part};
ghost use Rattle.rules.specs.Refusals.{onto};
ghost use Rattle.rules.specs.Queries.{Mesh as Told};
ghost use Rattle.rules.specs.Holes.{holes_answer, holes_leaves};
ghost use Rattle.answer.specs.Numbers.{numbers};
ghost use Rattle.theory.specs.Reaching.{In};
ghost use Rattle.reads.specs.Readings.{read_of};
ghost use Rattle.holes.specs.Marks.{Of, Nexts, Open, Followed, Marked, Numbered, Outcome, lent_holes};

use admission::admit;
use answer::{Answer, Reason, Refusal, give, refuse, refuse_at};
use buffers::{clear, copy};
use halfedge::wide;
use reads::{Fitting, Mesh};

// Puts next of each border half-edge into the work, if all can be read.
fn read_nexts(fitting: &Fitting, work: &mut [u32]) -> Option<()>
    requires { length fitting.now.border ≤ length work.old }
    ensures nexts { Nexts fitting.now (is_some result) work.new }
    ensures work_len_unchanged { length work.new ≡ length work.old }
{
    let k = fitting.border_count();
    for b in 0..k {
        work[wide(b)] = k + fitting.next_border(b + 1)?;
    }
    Some(())
}

// Marks the loop of b with h: how many border half-edges it has, if it comes back. M is any mesh whose work this is. The loop goes where the
// work tells it.
fn mark_loop(k: u32, b: u32, h: u32, work: &mut [u32]) -> Option<u32>
    requires { (M : Told) × Of M k × Open M b h work.old }
    ensures { (M : Told) → Of M k → Open M b h work.old → Followed M b h (read_of result) work.old work.new }
{
    let mut x = b;
    let mut count = 0;
    while k < work[wide(x) - 1] {
        let p = wide(x) - 1;
        x = work[p] - k;
        work[p] = h;
        count += 1;
    }
    if x != b {
        return None;
    }
    Some(count)
}

// Goes on from border half-edge b, up to which all are marked in h holes, to the next one: how many holes there are then, if its loop comes
// back.
fn mark_next(k: u32, b: u32, h: u32, work: &mut [u32]) -> Option<u32>
    requires { (M : Told) × Of M k × In M (b + 1) × Marked M b h work.old }
    ensures numbered { (M : Told) → Of M k → In M (b + 1) → Marked M b h work.old → Numbered M (b + 1) work.new (read_of result) }
    ensures work_len_unchanged { length work.new ≡ length work.old }
{
    if work[wide(b)] <= k {
        return Some(h);
    }
    let length = mark_loop(k, b + 1, h + 1, work)?;
    work[wide(k) + wide(h)] = length;
    Some(h + 1)
}

// All border half-edges one after another: how many holes they have, if all loops come back.
fn mark_all(k: u32, work: &mut [u32]) -> Option<u32>
    requires { (M : Told) × Of M k × Marked M 0 0 work.old }
    ensures numbered { (M : Told) → Of M k → Marked M 0 0 work.old → Numbered M k work.new (read_of result) }
    ensures work_len_unchanged { length work.new ≡ length work.old }
{
    let mut h = 0;
    for b in 0..k {
        h = mark_next(k, b, h, work)?;
    }
    Some(h)
}

// How many holes there are: next of all is read, and all are marked.
fn number_holes(fitting: &Fitting, work: &mut [u32]) -> Option<u32>
    requires { length fitting.now.border + length fitting.now.border ≤ length work.old }
    ensures numbered { Numbered fitting.now (length fitting.now.border) work.new (read_of result) }
    ensures work_len_unchanged { length work.new ≡ length work.old }
{
    read_nexts(fitting, work)?;
    mark_all(fitting.border_count(), work)
}

// The first k entries of the work, and the h entries after them.
fn write(k: usize, h: usize, work: &[u32], hole: &mut [u32], lengths: &mut [u32])
    requires { (k + h ≤ length work.now) × (k ≤ length hole.old) × (h ≤ length lengths.old) }
    ensures hole_after { hole.new ≡ onto (part 0 k work.now) hole.old }
    ensures lengths_after { lengths.new ≡ onto (part k h work.now) lengths.old }
{
    let end = k + h;
    copy(&work[..k], hole);
    copy(&work[k..end], lengths);
}

// The holes and their lengths where the lengths of all buffers are fit. The work buffer isn't cleared yet.
fn holes_fit(fitting: &Fitting, hole: &mut [u32], lengths: &mut [u32], work: &mut [u32]) -> Answer
    requires { length fitting.now.border + length fitting.now.border ≤ length work.old }
    ensures outcome { Outcome fitting.now (numbers result) hole.old lengths.old hole.new lengths.new }
    ensures work_len_unchanged { length work.new ≡ length work.old }
{
    let h = number_holes(fitting, work).ok_or(Refusal::of(Reason::Broken))?;
    let k = fitting.border_count();
    if hole.len() < wide(k) || lengths.len() < wide(k) {
        return refuse_at(Reason::Room, k, 0);
    }
    write(wide(k), wide(h), work, hole, lengths);
    give(h)
}

// For each border half-edge the number of its hole, holes numbered from 1 by their least border half-edge; for each hole how many border
// half-edges it has; and how many holes there are. A refusal leaves both outputs as they were. The work buffer is all zero afterwards, but
// after refusals 1 and 2, which leave it as it was.
pub fn holes(mesh: &Mesh, hole: &mut [u32], lengths: &mut [u32], work: &mut [u32]) -> Answer
    ensures result_value { numbers result ≡ holes_answer mesh.now (lent_holes hole.old lengths.old work.old) }
    ensures work_after { lent_holes hole.new lengths.new work.new ≡ holes_leaves mesh.now (lent_holes hole.old lengths.old work.old) }
{
    let fitting = admit(mesh)?;
    if work.len() < wide(mesh.n) + 16 * wide(fitting.element_count()) {
        return refuse(Reason::Lengths);
    }
    let answer = holes_fit(&fitting, hole, lengths, work);
    clear(work);
    answer
}
