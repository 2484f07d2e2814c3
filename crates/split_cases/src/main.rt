// Splits of edges in accepted lists and in refused ones, with codes of every kind and in buffers of many lengths. Each case prints its label;
// N with k and the number of edges, S with the new n and m, L with the list and V, E and B with the tables, each buffer to its end, and P with
// the new point, each number as the two halves of its bits; or the refusal; and whether what must stay stayed and the work buffer is as it must
// be. `stdout` is worked out by the rules of document 02, point 6, without these crates.
//
// The numbers of a case in `stdin` (crate `cases`) are
//   1       n
//   2       m
//   3       the code
//   4 to 8  the lengths of V2e, E2e, B2e, the work buffer and the points
// and then the entries of the list, which may be more than m rows.
#![tactic(auto)]

use cases::Lent;
use std::alloc::{AllocError, Global};

fn run_case(alloc: Global, numbers: &[u32]) -> Result<(), AllocError> {
    let &[n, m, code, v, e, b, w, p, ref list @ ..] = numbers else {
        return Ok(());
    };
    let mut lent = Lent::new(alloc, [n, m], list, [v.min(40), e.min(60), b.min(40)])?;
    let mut points = cases::POINTS;
    let mut work = cases::filled(alloc, cases::WORK, w.min(240))?;
    let before = lent.clone()?;
    let end = points.len().min(p as usize);
    let a = split::split(
        &mut lent.size,
        &mut lent.list,
        &mut lent.v2e,
        &mut lent.e2e,
        &mut lent.b2e,
        &mut points[..end],
        &mut work,
        code,
    );
    let old = cases::halves(alloc, &cases::POINTS)?;
    let halves = cases::halves(alloc, &points)?;
    match a {
        Ok(given) => {
            cases::emit_line(b'N', &[given.first, given.second]);
            cases::emit_line(b'S', &lent.size);
            lent.emit();
            if let Some(point) = halves.chunks_exact(6).nth(n as usize) {
                cases::emit_line(b'P', point);
            }
        }
        Err(refusal) => cases::emit_refusal(refusal),
    }
    // All points must be as before, but after an answer that of the new vertex.
    let mut pairs = old.chunks_exact(6).zip(halves.chunks_exact(6)).enumerate();
    let points_kept = pairs.all(|(i, (x, y))| x == y || a.is_ok() && i == n as usize);
    let kept = a.is_ok() || lent == before;
    cases::emit_clean(points_kept && kept && cases::is_work_left(a, &work));
    Ok(())
}

fn main(rt: HostRuntime) -> Result<(), AllocError> {
    cases::run_input(rt.alloc(), 8, |numbers| run_case(rt.alloc(), numbers))
}
