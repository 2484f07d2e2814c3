// Texts of OFF files. Each case prints its label; N with n and m, and L with the rows that were read, or the refusal; and whether what had to
// stay of the list did. `stdout` is worked out by the rules of document 02, point 3, without these crates.
//
// The numbers of a case in `stdin` (crate `cases`) are the length of the list and that of the text, which follows on the next line, byte by
// byte, with a newline after it.
#![tactic(auto)]

use std::alloc::{AllocError, Global};

const KEPT: u32 = 9;

// How many bytes of its input the program reads at most.
const ROOM: usize = 16384;

fn run_case(alloc: Global, list_length: u32, text: &[u8]) -> Result<(), AllocError> {
    let mut list = cases::filled(alloc, KEPT, list_length.min(64))?;
    let kept = match off::read_off(text, &mut list) {
        Ok(given) => {
            let entries = list.len().min(4 * given.second as usize);
            let (rows, rest) = list.split_at(entries);
            cases::emit_line(b'N', &[given.first, given.second]);
            cases::emit_line(b'L', rows);
            cases::is_all(rest, KEPT)
        }
        Err(refusal) => {
            cases::emit_refusal(refusal);
            cases::is_all(&list, KEPT)
        }
    };
    cases::emit_clean(kept);
    Ok(())
}

fn main(rt: HostRuntime) -> Result<(), AllocError> {
    let alloc = rt.alloc();
    let input = cases::read_input(alloc, ROOM)?;
    let mut rest = input.as_slice();
    while !rest.is_empty() {
        let (numbers, after) = cases::next_case(alloc, rest, 2)?;
        let &[list_length, text_length, ..] = numbers.as_slice() else {
            break;
        };
        let (text, after) = cases::part(after, text_length);
        run_case(alloc, list_length, text)?;
        (_, rest) = cases::part(after, 1);
    }
    Ok(())
}
