// The listing program, document 01. The first 8,192 bytes of the input tell what is printed (crate `listed`, `listing_first_bytes`).
#![tactic(auto)]

fn main() {
    let mut text: [u8; 8192] = [0; 8192];
    let n = io::read_full(0, &mut text);
    let mut out = io::large_buffer();
    let k = listed::list_tables(&text[..n], &mut out);
    io::write_all(1, &out[..k]);
}
