// The number of a housing's shape. Each case prints its label; N with the answer's two numbers, or the refusal; and whether the work buffer
// is as it must be. `stdout` is worked out by the rules of document 02, point 9, without these crates.
//
// The numbers of a case in `stdin` (crate `cases`) are n; the length of the work buffer; and the rows of the list.
#![tactic(auto)]

use std::alloc::{AllocError, Global};

fn run_case(alloc: Global, numbers: &[u32]) -> Result<(), AllocError> {
    let &[n, w, ref list @ ..] = numbers else {
        return Ok(());
    };
    let mut work = cases::filled(alloc, cases::WORK, w.min(500))?;
    let a = shape::shape(n, list, &mut work);
    match a {
        Ok(given) => cases::emit_line(b'N', &[given.first, given.second]),
        Err(refusal) => cases::emit_refusal(refusal),
    }
    cases::emit_clean(cases::is_work_left(a, &work));
    Ok(())
}

fn main(rt: HostRuntime) -> Result<(), AllocError> {
    cases::run_input(rt.alloc(), 2, |numbers| run_case(rt.alloc(), numbers))
}
