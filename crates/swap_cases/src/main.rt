// Swaps of diagonals in accepted lists and in refused ones, with codes of every kind and in buffers of many lengths. Each case prints its
// label; N with k and the number of edges, L with the list and V, E and B with the tables, each buffer to its end; or the refusal; and
// whether what must stay stayed and the work buffer is as it must be. `stdout` is worked out by the rules of document 02, point 1, without
// these crates.
//
// The numbers of a case in `stdin` (crate `cases`) are
//   1       n
//   2       m
//   3       the code
//   4 to 7  the lengths of V2e, E2e, B2e and the work buffer
// and then the entries of the list, which may be more than m rows.
#![tactic(auto)]

use cases::Lent;
use std::alloc::{AllocError, Global};

fn run_case(alloc: Global, numbers: &[u32]) -> Result<(), AllocError> {
    let &[n, m, code, v, e, b, w, ref list @ ..] = numbers else {
        return Ok(());
    };
    let mut lent = Lent::new(alloc, [n, m], list, [v.min(40), e.min(60), b.min(40)])?;
    let mut work = cases::filled(alloc, cases::WORK, w.min(200))?;
    let before = lent.clone()?;
    let a = swap::swap(
        n,
        m,
        &mut lent.list,
        &mut lent.v2e,
        &mut lent.e2e,
        &mut lent.b2e,
        &mut work,
        code,
    );
    match a {
        Ok(given) => {
            cases::emit_line(b'N', &[given.first, given.second]);
            lent.emit();
        }
        Err(refusal) => cases::emit_refusal(refusal),
    }
    let kept = a.is_ok() || lent == before;
    cases::emit_clean(kept && cases::is_work_left(a, &work));
    Ok(())
}

fn main(rt: HostRuntime) -> Result<(), AllocError> {
    cases::run_input(rt.alloc(), 7, |numbers| run_case(rt.alloc(), numbers))
}
