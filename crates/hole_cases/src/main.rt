// The holes of tables that build makes, of damaged tables and of buffers of unfit lengths. Each case prints its label; N with the number of
// holes, H with the hole of each border half-edge and L with the length of each hole, both outputs to their ends; or the refusal; and
// whether what must stay stayed and the work buffer is as it must be. `stdout` is worked out by the rules of document 02, point 11, without
// these crates.
//
// The numbers of a case in `stdin` (crate `cases`) are
//   1        n
//   2        the columns that the call is told, 0 to look at the list
//   3 to 5   the lengths of both outputs and of the work buffer
//   6 to 9   the lengths of the list, V2e, E2e and B2e
// and then the entries of the list, V2e, E2e and B2e.
#![tactic(auto)]

use reads::Mesh;
use std::alloc::{AllocError, Global};

// What the outputs hold before; no hole has this number, or this length.
const LEFT: u32 = u32::MAX;

fn run_case(alloc: Global, numbers: &[u32]) -> Result<(), AllocError> {
    let &[n, told, h, l, w, list, v2e, e2e, b2e, ref parts @ ..] = numbers else {
        return Ok(());
    };
    let (list, rest) = cases::part(parts, list);
    let (v2e, rest) = cases::part(rest, v2e);
    let (e2e, rest) = cases::part(rest, e2e);
    let (b2e, _) = cases::part(rest, b2e);
    let mesh = Mesh {
        n,
        columns: columns::seen(told, list),
        list,
        v2e,
        e2e,
        b2e,
    };
    let mut hole = cases::filled(alloc, LEFT, h.min(20))?;
    let mut lengths = cases::filled(alloc, LEFT, l.min(20))?;
    let mut work = cases::filled(alloc, cases::WORK, w.min(200))?;
    let a = holes::holes(&mesh, &mut hole, &mut lengths, &mut work);
    match a {
        Ok(given) => {
            cases::emit_line(b'N', &[given.first]);
            cases::emit_line(b'H', &hole);
            cases::emit_line(b'L', &lengths);
        }
        Err(refusal) => cases::emit_refusal(refusal),
    }
    let kept = a.is_ok() || cases::is_all(&hole, LEFT) && cases::is_all(&lengths, LEFT);
    cases::emit_clean(kept && cases::is_work_left(a, &work));
    Ok(())
}

fn main(rt: HostRuntime) -> Result<(), AllocError> {
    cases::run_input(
        rt.alloc(),
        cases::MOST,
        |numbers| run_case(rt.alloc(), numbers),
    )
}
