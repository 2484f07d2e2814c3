// Checks 1, 2 and 11, which come before a query's answer.
#![tactic(auto)]

ghost use Rattle.std.specs.Prelude.{true, ◌≡◌, ◌≤◌};
ghost use Rattle.rules.specs.Elements.{max_element, elements};
ghost use Rattle.rules.specs.Pairing.{sizes_fit};
ghost use Rattle.rules.specs.Queries.{query_lengths};
ghost use Rattle.admission.specs.Admitting.{Admits};

use answer::{Reason, Refusal};
use halfedge::wide;
use reads::{Fitting, Mesh};

// Check 1.
#[tactic(auto, unfolding(rules::specs::Pairing::sizes_fit, rules::specs::Pairing::call_sizes))]
fn sizes_fit(mesh: &Mesh) -> bool
    ensures { result ≡ sizes_fit mesh.now.n mesh.now.list }
{
    lengths::sizes_fit(mesh.n, mesh.list.len() / 4, mesh.list.len())
}

// Check 2.
#[tactic(auto, unfolding(rules::specs::Queries::query_lengths))]
fn lengths_fit(mesh: &Mesh) -> bool
    requires { elements mesh.now.list ≤ max_element }
    ensures { result ≡ query_lengths mesh.now }
{
    let m = mesh.list.len() / 4;
    3 <= mesh.columns
        && mesh.columns <= 4
        && mesh.v2e.len() == wide(mesh.n)
        && mesh.e2e.len() == wide(mesh.columns) * m
        && mesh.b2e.len() <= 4 * m
}

// Checks 1 and 2.
#[tactic(auto, using(crate::proofs::Admitted::few_elements, crate::proofs::Admitted::sizes_found, crate::proofs::Admitted::lengths_found, crate::proofs::Admitted::none_found))]
pub fn admit<'a>(mesh: &'a Mesh<'a>) -> Result<Fitting<'a>, Refusal>
    ensures { Admits mesh.now true result }
{
    if !sizes_fit(mesh) {
        return Err(Refusal::of(Reason::Sizes));
    }
    if !lengths_fit(mesh) {
        return Err(Refusal::of(Reason::Lengths));
    }
    Ok(Fitting { mesh })
}

// Check 11 after them: what is asked about is there.
#[tactic(auto, using(crate::proofs::Admitted::present))]
pub fn admit_asked<'a>(mesh: &'a Mesh<'a>, there: bool) -> Result<Fitting<'a>, Refusal>
    ensures { Admits mesh.now there result }
{
    let fitting = admit(mesh)?;
    if !there {
        return Err(Refusal::of(Reason::Absent));
    }
    Ok(fitting)
}
