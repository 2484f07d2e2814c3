// The shape of a housing, document 02, point 9: vertices − edges + elements.
#![tactic(auto)]

ghost use Rattle.std.specs.Prelude.{◌≡◌, ◌<◌, length};
ghost use Rattle.std.proofs.Math.IntN.{sub_ℕ};
ghost use Rattle.edit_rules.specs.Shape.{signed, list_shape, shape_answer, shape_work};
ghost use Rattle.answer.specs.Numbers.{numbers};
ghost use Rattle.tabulate.specs.Results.{Roomy};

use answer::{Answer, Reason, give_two, refuse};
use buffers::clear;
use halfedge::wide;
use lengths::sizes_fit;
use tabulate::tabulate_front;

// more − less as a signed number, in two's complement in an answer's 56 bits.
fn give_signed(more: u32, less: u32) -> Answer
    requires { (more < 268_435_456) × (less < 268_435_456) }
    ensures { numbers result ≡ signed (sub_ℕ more less) }
{
    if less <= more {
        return give_two(0, more - less);
    }
    give_two(268_435_455, 268_435_456 - (less - more))
}

// Checks 3 to 8 and 18, then the number, where the lengths are fit. The work buffer isn't cleared yet.
fn shape_fit(n: u32, list: &[u32], work: &mut [u32]) -> Answer
    requires { Roomy n list.now work.old }
    ensures result_value { numbers result ≡ list_shape n list.now }
    ensures work_len_unchanged { length work.new ≡ length work.old }
{
    let edges = tabulate_front(n, list, work)?.second;
    let m = list.len() / 4;
    give_signed(n + m as u32, edges)
}

// The number of vertices, spare ones too, less that of edges, and that of elements added; or a refusal. The work buffer is all zero
// afterwards, but after refusals 1 and 2, which leave it as it was.
pub fn shape(n: u32, list: &[u32], work: &mut [u32]) -> Answer
    ensures result_value { numbers result ≡ shape_answer n list.now work.old }
    ensures work_after { work.new ≡ shape_work n list.now work.old }
{
    let m = list.len() / 4;
    if !sizes_fit(n, m, list.len()) {
        return refuse(Reason::Sizes);
    }
    if work.len() < wide(n) + 16 * m {
        return refuse(Reason::Lengths);
    }
    let a = shape_fit(n, list, work);
    clear(work);
    a
}
