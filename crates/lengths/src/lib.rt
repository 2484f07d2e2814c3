// Checks 1 and 2, on the lengths of the buffers.
#![tactic(auto)]

ghost use Rattle.std.specs.Prelude.{◌≡◌, ◌+◌, ◌*◌, ◌/◌, ◌≤◌, leb, eqb};
ghost use Rattle.lists.specs.Tests.{both};
ghost use Rattle.rules.specs.Elements.{max_vertex, max_element};

use halfedge::{HalfEdge, wide};

// Check 1, for n, m and the length of the element list.
pub fn sizes_fit(n: u32, m: usize, list: usize) -> bool
    ensures { result ≡ both (leb n max_vertex) (both (leb m max_element) (eqb list (4 * (list / 4)))) }
{
    n <= HalfEdge::MAX_VERTEX && m <= wide(HalfEdge::MAX_ELEMENT) && list % 4 == 0
}

// Check 2 of a call with a work buffer, where check 1 found nothing; `others` is whether the other buffers have fit lengths.
pub fn lengths_fit(n: u32, m: usize, others: bool, v2e: usize, work: usize) -> bool
    requires { m ≤ max_element }
    ensures { result ≡ both (eqb v2e n) (both others (leb (n + 16 * m) work)) }
{
    v2e == wide(n) && others && wide(n) + 16 * m <= work
}
