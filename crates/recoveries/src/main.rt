// Recovery on tables that lists have, and on those tables with entries changed. Each case prints its label; L with the entries of
// the list recovered, or the refusal; and "clean" where a list recovered has the tables by `build`, what must stay stayed and the
// work buffer is as it must be. `stdout` is worked out by the rules of document 01, without these crates.
//
// The numbers of a case in `stdin` (crate `cases`) are
//   1       1 where the case is also run with each entry changed, else 0
//   2       n
//   3       m
//   4 to 7  the lengths of V2e, E2e, the list and the work buffer
// and then the entries of V2e and E2e.
#![tactic(auto)]

ghost use Rattle.std.specs.Prelude.{◌<◌, length};

use answer::{Answer, Reason, Refusal};
use std::alloc::{AllocError, Global};

// What the element list holds before. No accepted list has it in each entry.
const LIST: u32 = 7;

#[derive(Clone, Copy)]
struct Case<'a> {
    n: u32,
    m: u32,
    list_length: u32,
    work_length: u32,
    v2e: &'a [u32],
    e2e: &'a [u32],
}

// What recovery did. It is clean where a list recovered has the tables, what must stay stayed and the work buffer is as it must be.
#[derive(Drop)]
struct Outcome {
    answer: Answer,
    list: Vec<u32>,
    is_clean: bool,
}

// How many times there was refusal 10, a list, and any other refusal or what isn't clean.
#[derive(Clone, Copy, Default)]
struct Counts {
    no_list: u32,
    list: u32,
    other: u32,
}

impl Case<'_> {
    // Whether build accepts the list and writes exactly the tables of the case.
    fn has_tables(self, alloc: Global, list: &[u32]) -> Result<bool, AllocError> {
        let mut v2e = vec![in alloc; 0; self.v2e.len().min(12)]?;
        let mut e2e = vec![in alloc; 0; self.e2e.len().min(40)]?;
        let mut b2e = cases::filled(alloc, 0, 40)?;
        let mut work = cases::filled(alloc, 0, 200)?;
        let a = build::build(self.n, list, &mut v2e, &mut e2e, &mut b2e, &mut work);
        Ok(a.is_ok() && v2e.as_slice() == self.v2e && e2e.as_slice() == self.e2e)
    }

    fn recover(self, alloc: Global) -> Result<Outcome, AllocError> {
        let mut list = cases::filled(alloc, LIST, self.list_length.min(40))?;
        let mut work = cases::filled(alloc, cases::WORK, self.work_length.min(200))?;
        let answer = recover::recover(self.n, self.m, self.v2e, self.e2e, &mut list, &mut work);
        let is_kept = match answer {
            Ok(_) => self.has_tables(alloc, &list)?,
            Err(_) => cases::is_all(&list, LIST),
        };
        let is_clean = is_kept && cases::is_work_left(answer, &work);
        Ok(Outcome {
            answer,
            list,
            is_clean,
        })
    }
}

impl Counts {
    fn add(&mut self, outcome: &Outcome) {
        let count = match outcome.answer {
            Err(refusal) if refusal.reason == Reason::NoList && outcome.is_clean =>
                &mut self.no_list,
            Ok(_) if outcome.is_clean => &mut self.list,
            _ => &mut self.other,
        };
        *count = count.saturating_add(1);
    }
}

// A table with entry i, and the one after it, changed. The last entry is followed by the first.
fn changed<F: Fn(u32, u32) -> (u32, u32)>(
    alloc: Global,
    table: &[u32],
    i: usize,
    change: F,
) -> Result<Vec<u32>, AllocError>
    requires callable { F.IsAlwaysCallable change }
    requires in_bounds { i < length table.now }
{
    let mut copy = table.to_vec(alloc)?;
    let next = (i + 1) % table.len();
    let (x, y) = change(table[i], table[next]);
    copy[i] = x;
    copy[next] = y;
    Ok(copy)
}

// Changes each entry in turn, and prints a letter and the counts.
fn change_each<F: Fn(u32, u32) -> (u32, u32)>(
    alloc: Global,
    case: Case<'_>,
    letter: u8,
    change: F,
) -> Result<(), AllocError>
    requires { F.IsAlwaysCallable change }
{
    let mut counts = Counts::default();
    for i in 0..case.v2e.len() {
        let v2e = changed(alloc, case.v2e, i, &change)?;
        counts.add(&Case { v2e: &v2e, ..case }.recover(alloc)?);
    }
    for i in 0..case.e2e.len() {
        let e2e = changed(alloc, case.e2e, i, &change)?;
        counts.add(&Case { e2e: &e2e, ..case }.recover(alloc)?);
    }
    cases::emit_line(letter, &[counts.no_list, counts.list, counts.other]);
    Ok(())
}

fn run_case(alloc: Global, numbers: &[u32]) -> Result<(), AllocError> {
    let &[each, n, m, v, e, list_length, work_length, ref tables @ ..] = numbers else {
        return Ok(());
    };
    let (v2e, rest) = cases::part(tables, v);
    let (e2e, _) = cases::part(rest, e);
    let case = Case {
        n,
        m,
        list_length,
        work_length,
        v2e,
        e2e,
    };
    let outcome = case.recover(alloc)?;
    match outcome.answer {
        Ok(_) => cases::emit_line(b'L', &outcome.list),
        Err(refusal) => cases::emit_refusal(refusal),
    }
    cases::emit_clean(outcome.is_clean);
    if each == 0 {
        return Ok(());
    }
    // An entry below 1000 is made greater by 1; made 0; made that of the entry after it; and both are exchanged. An entry 0 that is made 0 stays, and
    // gives the same list.
    change_each(
        alloc,
        case,
        b'+',
        |x, y| (if x < 1000 { x + 1 } else { x }, y),
    )?;
    change_each(alloc, case, b'0', |_, y| (0, y))?;
    change_each(alloc, case, b'N', |_, y| (y, y))?;
    change_each(alloc, case, b'S', |x, y| (y, x))
}

fn main(rt: HostRuntime) -> Result<(), AllocError> {
    cases::run_input(
        rt.alloc(),
        cases::MOST,
        |numbers| run_case(rt.alloc(), numbers),
    )
}
