// The queries that answer one number.
#![tactic(auto)]

ghost use Rattle.std.specs.Prelude.{◌≡◌};
ghost use Rattle.answer.specs.Numbers.{numbers};
ghost use Rattle.rules.specs.Refusals.{gives};
ghost use Rattle.rules.specs.Queries.{by_side, by_entry, opposite_answer, next_answer, previous_answer, element_answer, origin_answer, destination_answer, across_answer, half_edge_border_answer, vertex_border_answer};
ghost use Rattle.rules.specs.Queries.{found as found_in};
ghost use Rattle.reads.specs.Readings.{read_of};

use admission::admit_asked;
use answer::{Answer, Reason, Refusal, give};
use halfedge::{element_of, is_border};
use reads::Mesh;
use sides::{next_code, previous_code};

// What a vertex is by its V2e entry: 0 inner, 1 rim, 2 unused.
fn kind_of(entry: u32) -> u32
    ensures { result ≡ by_entry entry 2 0 1 }
{
    if entry == 0 {
        return 2;
    }
    u32::from(is_border(entry))
}

// The answer to a question for one number.
#[tactic(auto, unfolding(rules::specs::Queries::found))]
fn found(x: Option<u32>) -> Answer
    ensures { numbers result ≡ found_in (read_of x) }
{
    give(x.ok_or(Refusal::of(Reason::Broken))?)
}

// The E2e or B2e entry of a half-edge.
#[tactic(auto, using(reads::proofs::Tested::half_border, reads::proofs::Tested::half_side, admission::proofs::Admitted::settled), unfolding(rules::specs::Queries::opposite_answer, rules::specs::Queries::opposite))]
pub fn opposite(mesh: &Mesh, code: u32) -> Answer
    ensures { numbers result ≡ opposite_answer mesh.now code }
{
    let fitting = admit_asked(mesh, mesh.is_half_edge(code))?;
    if is_border(code) {
        return found(mesh.read_border_side(code));
    }
    found(fitting.read_opposite(code))
}

// The half-edge after a half-edge, in its element or along the border.
#[tactic(auto, using(reads::proofs::Tested::half_border, reads::proofs::Tested::half_side, admission::proofs::Admitted::settled), unfolding(rules::specs::Queries::next_answer, rules::specs::Queries::found))]
pub fn next(mesh: &Mesh, code: u32) -> Answer
    ensures { numbers result ≡ next_answer mesh.now code }
{
    let fitting = admit_asked(mesh, mesh.is_half_edge(code))?;
    if is_border(code) {
        return found(fitting.border_next(code));
    }
    give(next_code(mesh.list, code))
}

// The side before a side in its element.
#[tactic(auto, using(admission::proofs::Admitted::settled), unfolding(rules::specs::Queries::previous_answer))]
pub fn previous(mesh: &Mesh, code: u32) -> Answer
    ensures { numbers result ≡ previous_answer mesh.now code }
{
    admit_asked(mesh, mesh.is_side(code))?;
    give(previous_code(mesh.list, code))
}

// The element of a side.
#[tactic(auto, using(admission::proofs::Admitted::settled), unfolding(rules::specs::Queries::element_answer))]
pub fn element(mesh: &Mesh, code: u32) -> Answer
    ensures { numbers result ≡ element_answer mesh.now code }
{
    admit_asked(mesh, mesh.is_side(code))?;
    give(element_of(code))
}

// The vertex from which a half-edge runs.
#[tactic(auto, using(reads::proofs::Tested::half_border, reads::proofs::Tested::half_side, admission::proofs::Admitted::settled), unfolding(rules::specs::Queries::origin_answer))]
pub fn origin(mesh: &Mesh, code: u32) -> Answer
    ensures { numbers result ≡ origin_answer mesh.now code }
{
    admit_asked(mesh, mesh.is_half_edge(code))?;
    if is_border(code) {
        return found(mesh.border_origin(code));
    }
    found(mesh.read_origin(code))
}

// The vertex to which a half-edge runs. Kept apart from `origin`: which end is read is all that either says.
#[tactic(auto, using(reads::proofs::Tested::half_border, reads::proofs::Tested::half_side, admission::proofs::Admitted::settled), unfolding(rules::specs::Queries::destination_answer))]
pub fn destination(mesh: &Mesh, code: u32) -> Answer
    ensures { numbers result ≡ destination_answer mesh.now code }
{
    admit_asked(mesh, mesh.is_half_edge(code))?;
    if is_border(code) {
        return found(mesh.border_destination(code));
    }
    found(mesh.read_destination(code))
}

// The element across a side, 0 at a border.
#[tactic(auto, using(admission::proofs::Admitted::settled), unfolding(rules::specs::Queries::across_answer, rules::specs::Queries::found, rules::specs::Queries::and_then))]
pub fn across(mesh: &Mesh, code: u32) -> Answer
    ensures { numbers result ≡ across_answer mesh.now code }
{
    let fitting = admit_asked(mesh, mesh.is_side(code))?;
    let opposed = fitting
        .read_opposite(code)
        .ok_or(Refusal::of(Reason::Broken))?;
    if is_border(opposed) {
        return give(0);
    }
    give(element_of(opposed))
}

// 1 for a border half-edge, 0 for a side.
#[tactic(auto, using(admission::proofs::Admitted::settled), unfolding(rules::specs::Queries::half_edge_border_answer))]
pub fn halfedge_is_border(mesh: &Mesh, code: u32) -> Answer
    ensures { numbers result ≡ half_edge_border_answer mesh.now code }
{
    admit_asked(mesh, mesh.is_half_edge(code))?;
    give(u32::from(is_border(code)))
}

// 1 for a vertex whose V2e entry is a border, 2 for one whose entry is 0, 0 for another.
#[tactic(auto, using(admission::proofs::Admitted::settled), unfolding(rules::specs::Queries::vertex_border_answer, rules::specs::Queries::found, rules::specs::Queries::and_then))]
pub fn vertex_is_border(mesh: &Mesh, v: u32) -> Answer
    ensures { numbers result ≡ vertex_border_answer mesh.now v }
{
    let fitting = admit_asked(mesh, mesh.is_vertex(v))?;
    let entry = fitting
        .read_vertex_entry(v)
        .ok_or(Refusal::of(Reason::Broken))?;
    give(kind_of(entry))
}
