// Contractions of edges in accepted lists and in refused ones, with codes of every kind and in buffers of many lengths. Each case prints its
// label; N with k and the number of edges, S with the new n and m, L with the list, V, E and B with the tables and P with the points, each number
// as the two halves of its bits, each buffer to its end; or the refusal; and whether what must stay stayed and the work buffer is as it must be.
// `stdout` is worked out by the rules of document 02, point 8, without these crates.
//
// The numbers of a case in `stdin` (crate `cases`) are
//   1       n
//   2       m
//   3       the code
//   4 to 8  the lengths of V2e, E2e, B2e, the work buffer and the points
// and then the entries of the list, which may be more than m rows.
#![tactic(auto)]

use cases::Lent;
use std::alloc::{AllocError, Global};

fn run_case(alloc: Global, numbers: &[u32]) -> Result<(), AllocError> {
    let &[n, m, code, v, e, b, w, p, ref list @ ..] = numbers else {
        return Ok(());
    };
    let mut lent = Lent::new(alloc, [n, m], list, [v.min(40), e.min(60), b.min(40)])?;
    let mut points = cases::POINTS;
    let mut work = cases::filled(alloc, cases::WORK, w.min(240))?;
    let before = lent.clone()?;
    let end = (p as usize).min(44);
    let a = contract::contract(
        &mut lent.size,
        &mut lent.list,
        &mut lent.v2e,
        &mut lent.e2e,
        &mut lent.b2e,
        &mut points[..end],
        &mut work,
        code,
    );
    match a {
        Ok(given) => {
            cases::emit_line(b'N', &[given.first, given.second]);
            cases::emit_line(b'S', &lent.size);
            lent.emit();
            cases::emit_line(b'P', &cases::halves(alloc, &points[..end])?);
        }
        Err(refusal) => cases::emit_refusal(refusal),
    }
    let old = cases::halves(alloc, &cases::POINTS)?;
    let halves = cases::halves(alloc, &points)?;
    let kept = a.is_ok() || lent == before && halves == old;
    cases::emit_clean(kept && cases::is_work_left(a, &work));
    Ok(())
}

fn main(rt: HostRuntime) -> Result<(), AllocError> {
    cases::run_input(rt.alloc(), 8, |numbers| run_case(rt.alloc(), numbers))
}
