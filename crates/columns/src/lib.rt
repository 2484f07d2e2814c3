// E2e's columns, document 02, point 10: how many a list has, and a table between four columns, as scratch tables have them, and its own.
#![tactic(auto)]

ghost use Rattle.std.specs.Prelude.{◌⊎◌, ◌≡◌, ℕ, true, false, ◌<◌, ◌+◌, ◌*◌, ◌/◌, ◌≤◌, length};
ghost use Rattle.lists.specs.Search.{at, tab};
ghost use Rattle.lists.specs.Tests.{same};
ghost use Rattle.rules.specs.Elements.{elements, side_at};
ghost use Rattle.rules.specs.Tables.{entry_of};
ghost use Rattle.rules.specs.Tables.{columns as columns_in};
ghost use Rattle.rules.specs.Recovery.{widened};
ghost use Rattle.rules.specs.Queries.{columns_answer};
ghost use Rattle.rules.specs.Queries.{seen as seen_in};
ghost use Rattle.theory.specs.Columns.{narrowed};
ghost use Rattle.answer.specs.Numbers.{numbers};

use answer::{Answer, Reason, give, refuse};
use buffers::{copy, is_same};
use lengths::sizes_fit;

// 4 where an element has a fourth corner, else 3.
pub fn columns_of(list: &[u32]) -> u32
    ensures { result ≡ columns_in list.now }
{
    if has_fourth(list) { 4 } else { 3 }
}

// Whether some element has a fourth corner.
fn has_fourth(list: &[u32]) -> bool
    ensures found { result ≡ true → (k : ℕ) × (k < length list.now / 4) × (at list.now (k * 4 + 3) ≡ 0 → ⊥) }
    ensures none { result ≡ false → (k : ℕ) → k < length list.now / 4 → at list.now (k * 4 + 3) ≡ 0 }
{
    list.chunks_exact(4).any(|row| row[3] != 0)
}

// The columns that a query goes by: told 0 it looks at the list, which takes the time of reading it.
pub fn seen(told: u32, list: &[u32]) -> u32
    ensures { result ≡ seen_in told list.now }
{
    if told == 0 {
        return columns_of(list);
    }
    told
}

// The list's columns, for callers that look once and then tell every query.
pub fn columns(n: u32, list: &[u32]) -> Answer
    ensures { numbers result ≡ columns_answer n list.now }
{
    if !sizes_fit(n, list.len() / 4, list.len()) {
        return refuse(Reason::Sizes);
    }
    give(columns_of(list))
}

// Four columns to three: entry p of three stands at p + p / 3 of four.
fn narrow(table: &[u32], out: &mut [u32])
    requires { (length table.now ≡ 4 * elements table.now) × (length out.old ≡ 3 * elements table.now) }
    ensures { out.new ≡ narrowed 3 table.now }
{
    for (p, entry) in out.iter_mut().enumerate() {
        *entry = table[p + p / 3];
    }
}

// A table of four columns in its own.
pub fn put(columns: u32, table: &[u32], out: &mut [u32])
    requires fact { (columns ≡ 3) ⊎ (columns ≡ 4) }
    requires table_len { (length table.now ≡ 4 * elements table.now) × (length out.old ≡ columns * elements table.now) }
    ensures { out.new ≡ narrowed columns table.now }
{
    if columns == 3 {
        narrow(table, out);
        return;
    }
    copy(table, out);
}

// Whether each entry p of three columns is that at p + p / 3 of four.
fn agrees(table: &[u32], e2e: &[u32]) -> bool
    requires { (length table.now ≡ 4 * elements table.now) × (length e2e.now ≡ 3 * elements table.now) }
    ensures all { result ≡ true → (k : ℕ) → k < length e2e.now → at e2e.now k ≡ at table.now (k + k / 3) }
    ensures found { result ≡ false → (k : ℕ) × (k < length e2e.now) × (at e2e.now k ≡ at table.now (k + k / 3) → ⊥) }
{
    (0..e2e.len()).all(|p| e2e[p] == table[p + p / 3])
}

fn is_narrow(table: &[u32], e2e: &[u32]) -> bool
    requires { length table.now ≡ 4 * elements table.now }
    ensures { result ≡ same (narrowed 3 table.now) e2e.now }
{
    e2e.len() == 3 * (table.len() / 4) && agrees(table, e2e)
}

// Whether E2e is a table of four columns in this many.
pub fn is_put(columns: u32, table: &[u32], e2e: &[u32]) -> bool
    requires fact { (columns ≡ 3) ⊎ (columns ≡ 4) }
    requires table_len { length table.now ≡ 4 * elements table.now }
    ensures { result ≡ same (narrowed columns table.now) e2e.now }
{
    if columns == 3 {
        return is_narrow(table, e2e);
    }
    is_same(table, e2e)
}

// Entry p of a table of three columns in four: a fourth entry is 0.
fn entry_at(e2e: &[u32], p: usize) -> u32
    requires { 3 * (p / 4 + 1) ≤ length e2e.now }
    ensures { result ≡ entry_of 3 e2e.now (side_at p) }
{
    if p % 4 == 3 {
        return 0;
    }
    e2e[p - p / 4]
}

// Three columns to four.
fn widen(e2e: &[u32], out: &mut [u32])
    requires { (length out.old ≡ 4 * elements out.old) × (length e2e.now ≡ 3 * elements out.old) }
    ensures { out.new ≡ tab (length out.old) (λ p. entry_of 3 e2e.now (side_at p)) }
{
    for (p, entry) in out.iter_mut().enumerate() {
        *entry = entry_at(e2e, p);
    }
}

// E2e of m elements in four columns, whichever it has.
pub fn spread(m: usize, e2e: &[u32], out: &mut [u32])
    requires fact { (length e2e.now ≡ 3 * m) ⊎ (length e2e.now ≡ 4 * m) }
    requires out_len { length out.old ≡ 4 * m }
    ensures { out.new ≡ widened m e2e.now }
{
    if e2e.len() == out.len() {
        copy(e2e, out);
        return;
    }
    widen(e2e, out);
}
