// The lines that the listing program prints, document 01, "The listing program".
#![tactic(auto)]

ghost use Rattle.std.specs.Prelude.{[], ◌∷◌, ◌≡◌, ℕ, ◌+◌, ◌*◌, ◌/◌, ◌≤◌, ◌<◌, length};
ghost use Rattle.print.specs.Lines.{digits, joined, item, items, line_of, width_of, row_line, Written, Counts, shown_line, shown_refusal, shown_tables};

// Writes the byte b at place p. Each such call answers the next place.
fn put_byte(out: &mut [u8], p: usize, b: u8) -> usize
    requires { p < length out.old }
    ensures { Written out.old p (b ∷ []) out.new result }
{
    out[p] = b;
    p + 1
}

fn put_digit(out: &mut [u8], p: usize, d: u32) -> usize
    requires p_in_bounds { p < length out.old }
    requires d_bound { d < 10 }
    ensures { Written out.old p ((48 + d) ∷ []) out.new result }
{
    put_byte(out, p, (48 + d) as u8)
}

// Writes the digits of x. Kept by hand: std states no bytes of a `write!` into a slice, and the heap, where a `String` has them, is not used.
fn put_number(out: &mut [u8], p: usize, x: u32) -> usize
    requires { p + length (digits x) ≤ length out.old }
    ensures { Written out.old p (digits x) out.new result }
{
    if x < 10 {
        return put_digit(out, p, x);
    }
    let q = put_number(out, p, x / 10);
    put_digit(out, q, x % 10)
}

// Writes a comma and the digits of number i.
fn put_item(out: &mut [u8], p: usize, numbers: &[u32], i: usize) -> usize
    requires p_in_bounds { p + 11 ≤ length out.old }
    requires i_in_bounds { i < length numbers.now }
    ensures written { Written out.old p (item numbers.now i) out.new result }
    ensures upper_bound { result ≤ p + 11 }
{
    let q = put_byte(out, p, b',');
    put_number(out, q, numbers[i])
}

// Writes a comma and the digits of each number.
// By index, as `put_item`: the definition `item` is told the numbers and the place.
fn put_items(out: &mut [u8], at: usize, numbers: &[u32]) -> usize
    requires { at + 11 * length numbers.now ≤ length out.old }
    ensures written { Written out.old at (items numbers.now) out.new result }
    ensures upper_bound { result ≤ at + 11 * length numbers.now }
{
    let mut p = at;
    for i in 0..numbers.len() {
        p = put_item(out, p, numbers, i);
    }
    p
}

// Writes a letter, the numbers and a newline.
fn put_line(out: &mut [u8], at: usize, letter: u8, numbers: &[u32]) -> usize
    requires { at + 11 * (length numbers.now + 1) ≤ length out.old }
    ensures written { Written out.old at (line_of letter numbers.now) out.new result }
    ensures upper_bound { result ≤ at + 11 * (length numbers.now + 1) }
{
    let p = put_byte(out, at, letter);
    let q = put_items(out, p, numbers);
    put_byte(out, q, b'\n')
}

// Writes the line of element k + 1, from a table of c columns.
fn put_row(out: &mut [u8], at: usize, c: usize, e2e: &[u32], k: usize) -> usize
    requires at_in_bounds { at + 55 ≤ length out.old }
    requires c_bound { (c ≤ 4) × (c * k + c ≤ length e2e.now) }
    ensures written { Written out.old at (row_line c e2e.now k) out.new result }
    ensures upper_bound { result ≤ at + 55 }
{
    let a = c * k;
    let e = a + c;
    put_line(out, at, b'E', &e2e[a..e])
}

// Writes a line for each of m elements.
fn put_rows(out: &mut [u8], at: usize, c: usize, m: usize, e2e: &[u32]) -> usize
    requires m_in_bounds { at + 55 * m ≤ length out.old }
    requires c_bound { (c ≤ 4) × ((k : ℕ) → k < m → c * k + c ≤ length e2e.now) }
    ensures written { Written out.old at (joined (row_line c e2e.now) m) out.new result }
    ensures upper_bound { result ≤ at + 55 * m }
{
    let mut p = at;
    for k in 0..m {
        p = put_row(out, p, c, e2e, k);
    }
    p
}

// Writes a letter and numbers as one line from place `at` on. Without room for the line it writes nothing.
pub fn print_line(out: &mut [u8], at: usize, letter: u8, numbers: &[u32]) -> usize
    ensures written { Written out.old at (shown_line (length out.old) at letter numbers.now) out.new result }
    ensures upper_bound { at ≤ length out.old → result ≤ length out.old }
{
    if out.len() < at || (out.len() - at) / 11 <= numbers.len() {
        return at;
    }
    put_line(out, at, letter, numbers)
}

// Writes the line of a refusal at the start of `out`; nothing without room.
pub fn print_refusal(out: &mut [u8], number: u32, first: u32, second: u32) -> usize
    ensures written { Written out.old 0 (shown_refusal (length out.old) number first second) out.new result }
    ensures counts { Counts result out.new }
{
    let numbers = [number, first, second];
    print_line(out, 0, b'R', &numbers)
}

// Three columns, or four.
fn width(columns: u32) -> usize
    ensures { result ≡ width_of columns }
{
    if columns == 3 { 3 } else { 4 }
}

// How many rows a table has.
fn row_count(columns: u32, entries: usize) -> usize
    ensures value { result ≡ entries / width_of columns }
    ensures result_bound { 3 * result ≤ entries }
{
    entries / width(columns)
}

// Writes the lines of the three tables at the start of `out`; nothing without room.
pub fn print_tables(out: &mut [u8], columns: u32, v2e: &[u32], e2e: &[u32], b2e: &[u32]) -> usize
    ensures written { Written out.old 0 (shown_tables (length out.old) (width_of columns) v2e.now e2e.now b2e.now) out.new result }
    ensures counts { Counts result out.new }
{
    let m = row_count(columns, e2e.len());
    if out.len() / 11 <= v2e.len() + b2e.len() + 5 * m + 1 {
        return 0;
    }
    let p = put_line(out, 0, b'V', v2e);
    let q = put_rows(out, p, width(columns), m, e2e);
    put_line(out, q, b'B', b2e)
}
