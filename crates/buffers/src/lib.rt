// Buffers: cleared, copied, compared. Functions stay over std's methods, since their clauses say it in the words of the rules (`onto`, `same`).
#![tactic(auto)]

ghost use Rattle.std.specs.Prelude.{◌≡◌, ℕ, ◌+◌, ◌≤◌, ◌<◌, length, replicate};
ghost use Rattle.std.proofs.lemmas.List.Edits.{sets};
ghost use Rattle.lists.specs.Search.{at};
ghost use Rattle.lists.specs.Stores.{Kept};
ghost use Rattle.lists.specs.Tests.{same};
ghost use Rattle.rules.specs.Refusals.{onto};

pub fn clear(out: &mut [u32])
    ensures { out.new ≡ replicate (length out.old) 0 }
{
    out.fill(0);
}

// The first n entries; the rest of `out` stays.
pub fn clear_first(n: usize, out: &mut [u32])
    requires { n ≤ length out.old }
    ensures kept { Kept n out.old out.new }
    ensures by_index { (i : ℕ) → i < n → at out.new i ≡ 0 }
{
    clear(&mut out[..n]);
}

// From the start of `out` on; the rest of `out` stays. Kept with an index: by `copy_from_slice` the archive asks for `memmove` from outside.
pub fn copy(from: &[u32], out: &mut [u32])
    requires { length from.now ≤ length out.old }
    ensures { out.new ≡ onto from.now out.old }
{
    for i in 0..from.len() {
        out[i] = from[i];
    }
}

// From entry q on; the rest of `out` stays.
pub fn put_four(out: &mut [u32], q: usize, four: [u32; 4])
    requires { q + 4 ≤ length out.old }
    ensures { out.new ≡ sets out.old q four }
{
    out[q..q + 4].copy_from_slice(&four);
}

pub fn is_same(a: &[u32], b: &[u32]) -> bool
    ensures { result ≡ same a.now b.now }
{
    a == b
}
