// What a contraction does to the element list, document 02, point 8: rows go, numbers are renamed, and vertices may be left unused.
#![tactic(auto)]

ghost use Rattle.std.specs.Prelude.{◌≡◌, ◌*◌, ◌-◌, ◌%◌, ◌≤◌, length, take};
ghost use Rattle.rules.specs.Elements.{elements, origin, destination};
ghost use Rattle.edit_rules.specs.Contract.{without_row, without_both, without_edge, renamed, merged, is_used};
ghost use Rattle.theory.specs.Coarsening.{all_used};
ghost use Rattle.gaps.specs.Closing.{fewer_by, ToClose};

use edits::put_row;
use halfedge::{element_of, is_border, wide};
use sides::row_at;

// The last of m rows takes the place of row f. The list then holds one row less; what stands after them is left to the caller.
fn without_row(m: u32, f: u32, list: &mut [u32])
    requires { (1 ≤ f) × (f ≤ m) × (4 * m ≤ length list.old) }
    ensures { (length list.new ≡ length list.old) × (take (4 * (m - 1)) list.new ≡ without_row f (take (4 * m) list.old)) }
{
    let last = row_at(list, m);
    put_row(f, last, list);
}

// Two rows go, the higher-numbered first.
fn without_both(m: u32, f: u32, g: u32, list: &mut [u32])
    requires le_f { (1 ≤ f) × (f ≤ m) × (1 ≤ g) × (g ≤ m) × (4 * m ≤ length list.old) }
    requires fact { f ≡ g → ⊥ }
    ensures { (length list.new ≡ length list.old) × (take (4 * (m - 2)) list.new ≡ without_both f g (take (4 * m) list.old)) }
{
    without_row(m, f.max(g), list);
    without_row(m - 1, f.min(g), list);
}

// How many of m rows stay: t is the entry of the side in E2e, its partner or a border half-edge.
pub fn fewer(m: u32, t: u32) -> u32
    requires { (1 ≤ m) × ((t % 8 ≡ 0 → ⊥) → 2 ≤ m) }
    ensures { result ≡ fewer_by m t }
{
    if is_border(t) {
        return m - 1;
    }
    m - 2
}

// The triangles on the edge of side s go.
fn without_edge(m: u32, list: &mut [u32], s: u32, t: u32)
    requires { ToClose m list.old s t }
    ensures { (length list.new ≡ length list.old) × (take (4 * fewer_by m t) list.new ≡ without_edge (take (4 * m) list.old) s) }
{
    if is_border(t) {
        without_row(m, element_of(s), list);
        return;
    }
    without_both(m, element_of(s), element_of(t), list);
}

// Every `old` becomes `new`.
pub fn rename(old: u32, new: u32, list: &mut [u32])
    ensures { list.new ≡ renamed old new list.old }
{
    // Each entry is written, so that a compiler may take several at once.
    for c in list.iter_mut() {
        *c = if *c == old { new } else { *c };
    }
}

// The triangles on the edge of side s, from a to b, go, and every b becomes a. The edge's vertices stay parameters: only contract has all four.
pub fn merge(m: u32, list: &mut [u32], s: u32, t: u32, a: u32, b: u32)
    requires { ToClose m list.old s t × (a ≡ origin (take (4 * m) list.old) s) × (b ≡ destination (take (4 * m) list.old) s) }
    ensures { (length list.new ≡ length list.old) × (take (4 * fewer_by m t) list.new ≡ merged (take (4 * m) list.old) s) }
{
    without_edge(m, list, s, t);
    let rows = 4 * wide(fewer(m, t));
    rename(b, a, &mut list[..rows]);
}

// Whether v is a corner of some element.
fn is_used(list: &[u32], v: u32) -> bool
    requires { (1 ≤ v) × (length list.now ≡ 4 * elements list.now) }
    ensures { result ≡ is_used list.now v }
{
    list.contains(&v)
}

// Whether each of three vertices is a corner of some element.
pub fn all_used(list: &[u32], a: u32, c: u32, d: u32) -> bool
    requires { (1 ≤ a) × (1 ≤ c) × (1 ≤ d) × (length list.now ≡ 4 * elements list.now) }
    ensures { result ≡ all_used list.now a c d }
{
    is_used(list, a) && is_used(list, c) && is_used(list, d)
}
