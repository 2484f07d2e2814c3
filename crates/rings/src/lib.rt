// The queries that write a list: ring, neighbours and border loop of document 01.
#![tactic(auto)]

ghost use Rattle.std.specs.Prelude.{◌≡◌};
ghost use Rattle.answer.specs.Numbers.{numbers};
ghost use Rattle.rules.specs.Queries.{ring_answer, ring_leaves, neighbours_answer, neighbours_leaves, border_loop_answer, border_loop_leaves};

use admission::admit_asked;
use answer::{Answer, Reason, Refusal};
use passes::{Borders, Elements, Ends, list_walk};
use reads::Mesh;

// The elements about a vertex, in turn order.
pub fn ring(mesh: &Mesh, v: u32, out: &mut [u32]) -> Answer
    ensures result_value { numbers result ≡ ring_answer mesh.now v out.old }
    ensures out_after { out.new ≡ ring_leaves mesh.now v out.old }
{
    let fitting = &admit_asked(mesh, mesh.is_vertex(v))?;
    let start = fitting.start_side(v).ok_or(Refusal::of(Reason::Broken))?;
    let walk = Elements { fitting, start };
    list_walk(&walk, fitting.element_count(), start, 0, out)
}

// The vertices joined to a vertex, in turn order.
pub fn neighbours(mesh: &Mesh, v: u32, out: &mut [u32]) -> Answer
    ensures result_value { numbers result ≡ neighbours_answer mesh.now v out.old }
    ensures out_after { out.new ≡ neighbours_leaves mesh.now v out.old }
{
    let fitting = &admit_asked(mesh, mesh.is_vertex(v))?;
    let start = fitting.start_side(v).ok_or(Refusal::of(Reason::Broken))?;
    let prior = fitting.prior_vertex(v).ok_or(Refusal::of(Reason::Broken))?;
    let walk = Ends { fitting, start };
    list_walk(&walk, fitting.element_count(), start, prior, out)
}

// The border numbers from b on, until b returns.
pub fn border_loop(mesh: &Mesh, b: u32, out: &mut [u32]) -> Answer
    ensures result_value { numbers result ≡ border_loop_answer mesh.now b out.old }
    ensures out_after { out.new ≡ border_loop_leaves mesh.now b out.old }
{
    let fitting = &admit_asked(mesh, mesh.is_border_number(b))?;
    let walk = Borders { fitting, start: b };
    list_walk(&walk, fitting.border_count(), b, 0, out)
}
