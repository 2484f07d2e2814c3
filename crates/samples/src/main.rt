// Building on the cases of document 01 and on the sample surface mesh of source document 000, figures 3 and 4. Each case prints its
// label; K with k and the number of edges and then the tables, or the refusal; and whether what must stay stayed and the work buffer
// is zero.
//
// The numbers of a case in `stdin` (crate `cases`) are n; the lengths of V2e, E2e, B2e and the work buffer; and the rows of the list.
// Of the sample surface mesh the rows are figure 3's elements, and the tables expected are those of figure 4, its pairs <f,i> turned
// into codes 8 * f + i by hand: document 01 chooses as the figure does in every entry.
#![tactic(auto)]

use std::alloc::{AllocError, Global};

// No code of a side or of a border: 8 * f + i has i at most 4.
const TABLE: u32 = 7;

// Prints the lines of the three tables; none where 1,000 bytes may be too short for them.
fn print_tables(columns: u32, v2e: &[u32], e2e: &[u32], b2e: &[u32]) {
    let mut out = [0; 1000];
    let count = print::print_tables(&mut out, columns, v2e, e2e, b2e);
    io::write_all(1, &out[..count]);
}

fn run_case(alloc: Global, numbers: &[u32]) -> Result<(), AllocError> {
    let &[n, v, e, b, w, ref list @ ..] = numbers else {
        return Ok(());
    };
    let mut v2e = cases::filled(alloc, TABLE, v.min(12))?;
    let mut e2e = cases::filled(alloc, TABLE, e.min(40))?;
    let mut b2e = cases::filled(alloc, TABLE, b.min(30))?;
    let mut work = cases::filled(alloc, cases::WORK, w.min(200))?;
    let a = build::build(n, list, &mut v2e, &mut e2e, &mut b2e, &mut work);
    let kept = match a {
        Ok(given) => {
            let columns = columns::columns_of(list);
            let k = b2e.len().min(given.first as usize);
            let (borders, rest) = b2e.split_at(k);
            cases::emit_line(b'K', &[given.first, given.second]);
            print_tables(columns, &v2e, &e2e, borders);
            cases::is_all(rest, TABLE)
        }
        Err(refusal) => {
            cases::emit_refusal(refusal);
            cases::is_all(&v2e, TABLE) && cases::is_all(&e2e, TABLE) && cases::is_all(&b2e, TABLE)
        }
    };
    cases::emit_clean(kept && cases::is_work_left(a, &work));
    Ok(())
}

fn main(rt: HostRuntime) -> Result<(), AllocError> {
    cases::run_input(rt.alloc(), 5, |numbers| run_case(rt.alloc(), numbers))
}
