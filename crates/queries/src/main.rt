// Every query over the tables that build makes, over those tables with one entry changed, and over buffers of unfit lengths. Each case
// prints its label, and then a line for each call that answers one number, over all codes from 0 on and the largest number; a line for
// each vertex or border number of each call that writes a list; and a line for each walk. `stdout` is worked out by the rules of
// document 01, without these crates.
//
// The numbers of a case in `stdin` (crate `cases`) are
//   1        what the case is: 1 for tables that build makes, 2 for given tables, 3 for steps over given tables
//   2 to 4   of 1, what is changed (0 nothing, 1 the list, 2 V2e, 3 E2e, 4 B2e), which entry, and to what; of 3, the walker's record
//   5 to 7   below which number codes are asked, below which vertices and borders, and the room for lists
//   8        n
//   9        the columns that each call is told, 0 to look at the list
//   10 to 13 the lengths of the list, V2e, E2e and B2e; of 1, the last is found by build
// and then the entries of the list, V2e, E2e and B2e; of 1, the tables are put behind the list once they are built.
#![tactic(auto)]

use answer::Answer;
use reads::Mesh;
use std::alloc::{AllocError, Global};
use walker::Walker;

// What an output holds before.
const LEFT: u32 = 7;

// An element list with its tables: parts of numbers, one after another. Part 0 is the list, 1 V2e, 2 E2e and 3 B2e.
#[derive(Drop)]
struct Tables {
    numbers: Vec<u32>,
    lengths: [u32; 4],
}

impl Tables {
    // Where part i starts.
    fn start(&self, i: usize) -> usize {
        let before = self.lengths.iter().take(i);
        before.fold(
            0,
            |start, length| self
                .numbers
                .len()
                .min(start.saturating_add(*length as usize)),
        )
    }

    fn mesh(&self, n: u32, told: u32) -> Mesh<'_> {
        let [l, v, e, b] = self.lengths;
        let (list, rest) = cases::part(&self.numbers, l);
        let (v2e, rest) = cases::part(rest, v);
        let (e2e, rest) = cases::part(rest, e);
        let (b2e, _) = cases::part(rest, b);
        Mesh {
            n,
            columns: columns::seen(told, list),
            list,
            v2e,
            e2e,
            b2e,
        }
    }

    // Copies a table to part i. What there is more than its length is overwritten by the next one.
    fn copy(&mut self, i: usize, table: &[u32]) {
        let start = self.start(i);
        for (entry, x) in self.numbers.iter_mut().skip(start).zip(table) {
            *entry = *x;
        }
    }

    // Puts the tables that build makes of the list, B2e with the length that build gives. The answer is build's.
    fn build(&mut self, alloc: Global, n: u32) -> Result<Answer, AllocError> {
        let [l, v, e, _] = self.lengths;
        let mut v2e = cases::filled(alloc, LEFT, 40)?;
        let mut e2e = cases::filled(alloc, LEFT, 40)?;
        let mut b2e = cases::filled(alloc, LEFT, 40)?;
        let mut work = cases::filled(alloc, LEFT, 200)?;
        let (list, _) = cases::part(&self.numbers, l);
        let v = v2e.len().min(v as usize);
        let e = e2e.len().min(e as usize);
        let a = build::build(n, list, &mut v2e[..v], &mut e2e[..e], &mut b2e, &mut work);
        let [_, k, _] = cases::numbers_of(a);
        self.lengths[3] = k;
        self.copy(1, &v2e);
        self.copy(2, &e2e);
        self.copy(3, &b2e);
        Ok(a)
    }

    // Makes a number x: entry `at` of the list for 1, of V2e for 2, of E2e for 3, of B2e for more, counted on past its end; for 0 none.
    fn change(&mut self, part: u32, at: u32, x: u32) {
        let Some(i) = part.min(4).checked_sub(1) else {
            return;
        };
        let place = self.start(i as usize).saturating_add(at as usize);
        if let Some(entry) = self.numbers.get_mut(place) {
            *entry = x;
        }
    }
}

// The number that a call gives, or 1000 and the refusal. 9000 where a number that must be 0 isn't.
fn coded(a: Answer) -> u32 {
    match cases::numbers_of(a) {
        [0, first, 0] => first,
        [number, 0, 0] if number < 100 => 1000 + number,
        _ => 9000,
    }
}

// A line of the answers at 0, 1, .. below `end`, and a line of that at the largest number.
fn print_each<F: Fn(&Mesh<'_>, u32) -> Answer>(
    alloc: Global,
    mesh: &Mesh<'_>,
    end: u32,
    letter: u8,
    query: F,
) -> Result<(), AllocError>
    requires { F.IsAlwaysCallable query }
{
    let mut line = Vec::new(alloc);
    for x in 0..end.min(80) {
        line.push(coded(query(mesh, x)))?;
    }
    cases::emit_line(letter, &line);
    cases::emit_line(letter, &[coded(query(mesh, u32::MAX))]);
    Ok(())
}

// For each of 0, 1, .. below `end`, a line of it and the answer's three numbers, and a line of the output.
fn print_lists<F: Fn(&Mesh<'_>, u32, &mut [u32]) -> Answer>(
    alloc: Global,
    mesh: &Mesh<'_>,
    end: u32,
    room: u32,
    letter: u8,
    query: F,
) -> Result<(), AllocError>
    requires { F.IsAlwaysCallable query }
{
    for x in 0..end {
        let mut out = cases::filled(alloc, LEFT, room.min(11))?;
        let [number, first, second] = cases::numbers_of(query(mesh, x, &mut out));
        cases::emit_line(letter, &[x, number, first, second]);
        cases::emit_line(b'=', &out);
    }
    Ok(())
}

// A line of an answer and of the record that the call leaves.
fn print_moved(letter: u8, a: Answer, w: &Walker) {
    cases::emit_line(letter, &[coded(a), w.start, w.following, w.handed]);
}

// Nine steps.
fn print_steps(mesh: &Mesh<'_>, mut w: Walker) {
    for _ in 0..9 {
        let a = w.step(mesh);
        print_moved(b'S', a, &w);
    }
}

fn print_walk(mesh: &Mesh<'_>, v: u32) {
    let mut w = Walker::from([LEFT; 3]);
    let a = w.start(mesh, v);
    print_moved(b'W', a, &w);
    print_steps(mesh, w);
}

// Every query, over codes below the first number, vertices and borders below the second, and with the third as the room for lists.
fn print_queries(
    alloc: Global,
    mesh: &Mesh<'_>,
    [codes, ends, room]: [u32; 3],
) -> Result<(), AllocError> {
    print_each(alloc, mesh, codes, b'O', query::opposite)?;
    print_each(alloc, mesh, codes, b'X', query::next)?;
    print_each(alloc, mesh, codes, b'P', query::previous)?;
    print_each(alloc, mesh, codes, b'E', query::element)?;
    print_each(alloc, mesh, codes, b'F', query::origin)?;
    print_each(alloc, mesh, codes, b'T', query::destination)?;
    print_each(alloc, mesh, codes, b'A', query::across)?;
    print_each(alloc, mesh, codes, b'H', query::halfedge_is_border)?;
    print_each(alloc, mesh, codes, b'V', query::vertex_is_border)?;
    print_lists(alloc, mesh, ends, room, b'R', rings::ring)?;
    print_lists(alloc, mesh, ends, room, b'N', rings::neighbours)?;
    print_lists(alloc, mesh, ends, room, b'L', rings::border_loop)?;
    for v in 0..ends {
        print_walk(mesh, v);
    }
    Ok(())
}

fn run_case(alloc: Global, numbers: &[u32]) -> Result<(), AllocError> {
    let &[
        kind,
        first,
        second,
        third,
        codes,
        ends,
        room,
        n,
        told,
        l,
        v,
        e,
        b,
        ref parts @ ..,
    ] = numbers
    else {
        return Ok(());
    };
    let mut tables = Tables {
        numbers: parts.to_vec(alloc)?,
        lengths: [l, v, e, b],
    };
    if kind == 1 {
        let a = tables.build(alloc, n)?;
        cases::emit_line(b'K', &cases::numbers_of(a));
        tables.change(first, second, third);
    }
    let mesh = tables.mesh(n, told);
    if kind == 3 {
        print_steps(&mesh, Walker::from([first, second, third]));
        return Ok(());
    }
    print_queries(alloc, &mesh, [codes, ends, room])
}

fn main(rt: HostRuntime) -> Result<(), AllocError> {
    cases::run_input(
        rt.alloc(),
        cases::MOST,
        |numbers| run_case(rt.alloc(), numbers),
    )
}
