// The siblings of lists with edges of any number of plates. Each case prints its label; V with the least side of each vertex and S with the
// siblings of each element's sides, or the refusal; and whether what must stay stayed and the work buffer is as it must be. `stdout` is
// worked out by the rules of document 02, point 12, without these crates.
//
// The numbers of a case in `stdin` (crate `cases`) are n; the lengths of V2e, the map and the work buffer; and the rows of the list.
#![tactic(auto)]

use std::alloc::{AllocError, Global};

// No code of a side: 8 * f + i has i at most 4.
const MAP: u32 = 7;

fn run_case(alloc: Global, numbers: &[u32]) -> Result<(), AllocError> {
    let &[n, v, s, w, ref list @ ..] = numbers else {
        return Ok(());
    };
    let mut v2e = cases::filled(alloc, MAP, v.min(12))?;
    let mut sibhe = cases::filled(alloc, MAP, s.min(40))?;
    let mut work = cases::filled(alloc, cases::WORK, w.min(200))?;
    let a = sibling_map::siblings(n, list, &mut v2e, &mut sibhe, &mut work);
    match a {
        Ok(_) => {
            cases::emit_line(b'V', &v2e);
            for row in sibhe.chunks_exact(4) {
                cases::emit_line(b'S', row);
            }
        }
        Err(refusal) => cases::emit_refusal(refusal),
    }
    let kept = a.is_ok() || cases::is_all(&v2e, MAP) && cases::is_all(&sibhe, MAP);
    cases::emit_clean(kept && cases::is_work_left(a, &work));
    Ok(())
}

fn main(rt: HostRuntime) -> Result<(), AllocError> {
    cases::run_input(rt.alloc(), 4, |numbers| run_case(rt.alloc(), numbers))
}
