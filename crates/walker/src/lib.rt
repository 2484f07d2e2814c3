// A walker: a record that each call moves on by one element of the ring.
#![tactic(auto)]

ghost use Rattle.std.specs.Prelude.{◌≡◌, ◌<◌, [], ◌∷◌, IfSome};
ghost use Rattle.rules.specs.Elements.{max_element};
ghost use Rattle.rules.specs.Queries.{goes_to, walker_start, walker_step};
ghost use Rattle.reads.specs.Readings.{read_of};
ghost use Rattle.walker.specs.Walkers.{record_of, record_in, left_by};

use admission::{admit, admit_asked};
use answer::{Answer, Reason, Refusal, give};
use halfedge::element_of;
use reads::{Fitting, Mesh};

// The ring's start side, the side whose element comes next (0 when the ring is over, as in the paper's record), and the count handed out.
#[derive(Clone, Copy)]
pub struct Walker {
    pub start: u32,
    pub following: u32,
    pub handed: u32,
}

impl Walker {
    // The side that the record goes on to, 0 at the ring's end.
    #[tactic(auto, unfolding(rules::specs::Queries::goes_to, rules::specs::Queries::and_then))]
    fn next(self, fitting: &Fitting) -> Option<u32>
        ensures side { read_of result ≡ goes_to fitting.now (record_of self) }
        ensures count { IfSome result (λ _. self.handed < max_element) }
    {
        let m = fitting.element_count();
        if !fitting.mesh.is_side(self.start)
            || !fitting.mesh.is_side(self.following)
            || m <= self.handed
        {
            return None;
        }
        let turn = fitting.ring_next(self.start, self.following)?;
        if turn != 0 && m <= self.handed + 1 {
            return None;
        }
        Some(turn)
    }

    // Sets the record to the start of the ring of v.
    #[tactic(auto, using(admission::proofs::Admitted::settled), unfolding(rules::specs::Queries::walker_start, rules::specs::Queries::start_answer, rules::specs::Queries::walked, rules::specs::Queries::started, rules::specs::Queries::found, rules::specs::Queries::and_then))]
    pub fn start(&mut self, mesh: &Mesh, v: u32) -> Answer
        ensures { left_by result self.new ≡ walker_start mesh.now v (record_of self.old) }
    {
        let fitting = admit_asked(mesh, mesh.is_vertex(v))?;
        let start = fitting.start_side(v).ok_or(Refusal::of(Reason::Broken))?;
        *self = Walker {
            start,
            following: start,
            handed: 0,
        };
        give(0)
    }

    // The element that comes next, 0 after the ring's last; the record moves on.
    #[tactic(auto, using(admission::proofs::Admitted::settled), unfolding(rules::specs::Queries::walker_step, rules::specs::Queries::walked, rules::specs::Queries::moved, rules::specs::Queries::found, rules::specs::Queries::and_then, rules::specs::Queries::defined))]
    pub fn step(&mut self, mesh: &Mesh) -> Answer
        ensures { left_by result self.new ≡ walker_step mesh.now (record_of self.old) }
    {
        let fitting = admit(mesh)?;
        if self.following == 0 {
            return give(0);
        }
        let next = self.next(&fitting).ok_or(Refusal::of(Reason::Broken))?;
        let element = element_of(self.following);
        self.following = next;
        self.handed += 1;
        give(element)
    }
}

// A record that a host holds as three numbers.
impl From<[u32; 3]> for Walker {
    ghost from_gives = { λ w r. record_of r ≡ record_in w };

    fn from(numbers: [u32; 3]) -> Walker {
        let [start, following, handed] = numbers;
        Walker {
            start,
            following,
            handed,
        }
    }
}

impl From<Walker> for [u32; 3] {
    ghost from_gives = { λ w r. r ≡ w.start ∷ w.following ∷ w.handed ∷ [] };

    fn from(walker: Walker) -> [u32; 3] {
        [walker.start, walker.following, walker.handed]
    }
}
