// What the listing program prints for many texts, one after the other; `stdout` has what document 01 says of each.
//
// A case in `stdin` is a line with its label; the text, byte for byte; and, in no text, the byte `#` and a newline. Cases come in this
// order: accepted, the rows of document 01 and others worked out by its rules; refused by build's checks 3 to 8 and 18; a bad line 1; a bad line 2
// or 3 among four; a bad last line, a missing one, and bytes after it.
#![tactic(auto)]

use std::alloc::AllocError;

fn print_listing(text: &[u8]) {
    let mut out = io::large_buffer();
    let count = listed::list_tables(text, &mut out);
    io::write_all(1, &out[..count]);
}

fn main(rt: HostRuntime) -> Result<(), AllocError> {
    let input = cases::read_input(rt.alloc(), cases::ROOM)?;
    let mut rest = input.as_slice();
    while !rest.is_empty() {
        let (label, case) = cases::cut(rest, b'\n');
        let (case, after) = cases::cut(case, b'#');
        cases::print_label(label);
        if let Some((_, text)) = case.split_first() {
            print_listing(text);
        }
        (_, rest) = cases::part(after, 2);
    }
    Ok(())
}
