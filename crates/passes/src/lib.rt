// A walk about a vertex or along the border: counted first, written once its room is known.
#![tactic(auto)]

ghost use Rattle.std.proofs.Math.Option.{Option as Read, some};
ghost use Rattle.std.specs.Prelude.{◌≡◌, ℕ, ◌≤◌, length};
ghost use Rattle.answer.specs.Numbers.{numbers};
ghost use Rattle.rules.specs.Elements.{max_border, element, Side};
ghost use Rattle.rules.specs.Queries.{onward, loop_next, read_destination};
ghost use Rattle.reads.specs.Readings.{read_of};
ghost use Rattle.passes.specs.Walks.{walked, size_of, list_of, preceded, Lists};

use answer::{Answer, Reason, Refusal, give, refuse_at};
use halfedge::{element_of, wide};
use reads::Fitting;

// What is walked over from a start until it stops, and what is listed of it.
pub trait Walk {
    // What it goes over.
    ghost stands: { Self → ℕ → Type 0 };

    // What is listed for a step, and what comes after it, 0 where the walk stops, as in the rules' `follow`.
    ghost shows: { Self → ℕ → Read ℕ };

    ghost goes: { Self → ℕ → Read ℕ };

    fn shown(&self, x: u32) -> Option<u32>
        requires { stands self.now x }
        ensures { read_of result ≡ shows self.now x };

    fn next(&self, x: u32) -> Option<u32>
        requires { stands self.now x }
        ensures next { read_of result ≡ goes self.now x }
        ensures goes_on { (y : ℕ) → goes self.now x ≡ some y → (y ≡ 0 → ⊥) → stands self.now y };
}

// The elements about a vertex, from the start side of its ring.
#[derive(Clone, Copy)]
pub struct Elements<'a> {
    pub fitting: &'a Fitting<'a>,
    pub start: u32,
}

// The ends of the sides of a vertex's ring.
#[derive(Clone, Copy)]
pub struct Ends<'a> {
    pub fitting: &'a Fitting<'a>,
    pub start: u32,
}

// The border numbers of a loop.
#[derive(Clone, Copy)]
pub struct Borders<'a> {
    pub fitting: &'a Fitting<'a>,
    pub start: u32,
}

impl Walk for Elements<'_> {
    ghost stands = { λ w x. Side w.fitting.now.list x };

    ghost shows = { λ w x. some (element x) };

    ghost goes = { λ w x. onward w.fitting.now w.start x };

    fn shown(&self, x: u32) -> Option<u32> {
        Some(element_of(x))
    }

    #[tactic(auto, using(crate::proofs::Standing::onward_side))]
    fn next(&self, x: u32) -> Option<u32> {
        self.fitting.ring_next(self.start, x)
    }
}

impl Walk for Ends<'_> {
    ghost stands = { λ w x. Side w.fitting.now.list x };

    ghost shows = { λ w x. read_destination w.fitting.now x };

    ghost goes = { λ w x. onward w.fitting.now w.start x };

    fn shown(&self, x: u32) -> Option<u32> {
        let fitting = self.fitting;
        fitting.mesh.read_destination(x)
    }

    #[tactic(auto, using(crate::proofs::Standing::onward_side))]
    fn next(&self, x: u32) -> Option<u32> {
        self.fitting.ring_next(self.start, x)
    }
}

impl Walk for Borders<'_> {
    ghost stands = { λ w x. (1 ≤ x) × (x ≤ length w.fitting.now.border) };

    ghost shows = { λ w x. some x };

    ghost goes = { λ w x. loop_next w.fitting.now w.start x };

    fn shown(&self, x: u32) -> Option<u32> {
        Some(x)
    }

    #[tactic(auto, using(crate::proofs::Standing::loop_border))]
    fn next(&self, x: u32) -> Option<u32> {
        self.fitting.loop_next(self.start, x)
    }
}

// A pass over a walk of at most `limit` steps: how many entries it lists. They are written where `out` has room for them, so that a pass
// over an empty one only counts. The loop goes where the walk leads.
fn pass<W: Walk>(walk: &W, limit: u32, start: u32, out: &mut [u32]) -> Option<u32>
    requires { (start ≡ 0 → ⊥) → W.stands walk.now start }
    ensures size { read_of result ≡ size_of (walked (W.shows walk.now) (W.goes walk.now) limit start) }
    ensures most { (k : ℕ) → read_of result ≡ some k → k ≤ limit }
    ensures kept { length out.new ≡ length out.old }
    ensures written { size_of (walked (W.shows walk.now) (W.goes walk.now) limit start) ≡ some (length out.old) → out.new ≡ list_of (walked (W.shows walk.now) (W.goes walk.now) limit start) }
{
    let mut x = start;
    let mut count = 0;
    while x != 0 {
        if limit <= count {
            return None;
        }
        let shown = walk.shown(x)?;
        if wide(count) < out.len() {
            out[wide(count)] = shown;
        }
        x = walk.next(x)?;
        count += 1;
    }
    Some(count)
}

// Lists a walk of at most `limit` steps, after the vertex before it, where there is one.
pub fn list_walk<W: Walk>(walk: &W, limit: u32, start: u32, prior: u32, out: &mut [u32]) -> Answer
    requires begins { (start ≡ 0 → ⊥) → W.stands walk.now start }
    requires limit_le_max_border { limit ≤ max_border }
    ensures { Lists (preceded prior (walked (W.shows walk.now) (W.goes walk.now) limit start)) out.old (numbers result) out.new }
{
    let size = pass(walk, limit, start, &mut []).ok_or(Refusal::of(Reason::Broken))?;
    let first = u32::from(prior != 0);
    let needed = first + size;
    if out.len() < wide(needed) {
        return refuse_at(Reason::Room, needed, 0);
    }
    if prior != 0 {
        out[0] = prior;
    }
    // It comes to its end again, and writes.
    let _ = pass(walk, limit, start, &mut out[wide(first)..wide(needed)]);
    give(needed)
}
