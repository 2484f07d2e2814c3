// Check 8, after the walk: the least vertex with a side that the walk did not write.
// Vertex 0 is none: this is the very number of the rules' `unordered_vertex`.
#![tactic(auto)]

ghost use Rattle.std.specs.Prelude.{◌≡◌, drop};
ghost use Rattle.rules.specs.Elements.{first_number};
ghost use Rattle.rules.specs.Refusals.{missed};
ghost use Rattle.theory.specs.FitRows.{Fit};
ghost use Rattle.unordered.specs.Missed.{Walked, Lesser};

// The lesser of two vertices, the second counting only where it was not written; 0 is none.
fn lesser_missed(best: u32, x: u32, written: u32) -> u32
    ensures { Lesser best x written result }
{
    if written != x && (best == 0 || x < best) {
        x
    } else {
        best
    }
}

// The least vertex with a side that isn't written from place o on; 0 where there is none.
pub fn unordered_vertex(n: u32, o: usize, list: &[u32], work: &[u32]) -> u32
    requires { Walked o list.now work.now × Fit n list.now }
    ensures { result ≡ first_number n (missed list.now (drop o work.now)) }
{
    let mut best = 0;
    for (p, x) in list.iter().enumerate() {
        best = lesser_missed(best, *x, work[o + p]);
    }
    best
}
