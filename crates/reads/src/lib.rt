// What a query reads from a mesh: a value that names something, or nothing where an entry is broken.
// A ring that stops, a loop that closes and a vertex that is unused are told by 0, as in the rules' `onward`, `loop_next` and `start_side`.
#![tactic(auto)]

ghost use Rattle.std.specs.Prelude.{◌≡◌, ◌≤◌, T, length};
ghost use Rattle.lists.specs.Tests.{within};
ghost use Rattle.rules.specs.Elements.{max_element, max_border, elements, Side, is_side};
ghost use Rattle.rules.specs.Tables.{entry_of};
ghost use Rattle.rules.specs.Queries.{and_then, is_border_code, is_half_edge, is_entry, is_vertex, read_opposite, read_border_side, read_vertex_entry, read_origin};
ghost use Rattle.rules.specs.Queries.{read_destination, border_next, start_side, onward, next_border, loop_next};
ghost use Rattle.reads.specs.Readings.{read_of, prior_vertex};

use halfedge::{HalfEdge, element_of, is_border, number_of, slot_in, wide};
use sides::{is_side, next_code, origin_of};
use std::marker::Model;

// An element list with its tables, which may be unfit. A clause sees the mesh of the rules.
#[derive(Drop)]
pub struct Mesh<'a> {
    pub n: u32,
    pub columns: u32,
    pub list: &'a [u32],
    pub v2e: &'a [u32],
    pub e2e: &'a [u32],
    pub b2e: &'a [u32],
}

impl<'a> Model for Mesh<'a> {
    ghost use Rattle.rules.specs.Queries.{Mesh as Told};
    ghost use Rattle.reads.specs.Meshes.{mesh};

    ghost Value = { Told };

    ghost view = { λ s. mesh s.n s.columns s.list.now s.v2e.now s.e2e.now s.b2e.now };
}

// A mesh that checks 1 and 2 let pass.
#[derive(Drop)]
pub struct Fitting<'a> {
    pub mesh: &'a Mesh<'a>,
}

impl<'a> Model for Fitting<'a> {
    ghost use Rattle.rules.specs.Queries.{Mesh as Told};
    ghost use Rattle.reads.specs.Meshes.{Fit};

    ghost Value = { Told };

    ghost view = { λ s. s.mesh.now };

    ghost invariant = { λ s. Fit s.mesh.now };
}

impl Mesh<'_> {
    #[tactic(auto, unfolding(rules::specs::Queries::is_vertex))]
    pub fn is_vertex(&self, v: u32) -> bool
        ensures { result ≡ is_vertex self.now v }
    {
        1 <= v && v <= self.n
    }

    pub fn is_border_number(&self, b: u32) -> bool
        ensures { result ≡ within 1 (length self.now.border) b }
    {
        1 <= b && wide(b) <= self.b2e.len()
    }

    #[tactic(auto, unfolding(rules::specs::Queries::is_border_code))]
    fn is_border_code(&self, code: u32) -> bool
        ensures { result ≡ is_border_code self.now code }
    {
        is_border(code) && self.is_border_number(element_of(code))
    }

    pub fn is_side(&self, code: u32) -> bool
        ensures { result ≡ is_side self.now.list code }
    {
        is_side(self.list, code)
    }

    #[tactic(auto, unfolding(rules::specs::Queries::is_half_edge))]
    pub fn is_half_edge(&self, code: u32) -> bool
        ensures { result ≡ is_half_edge self.now code }
    {
        self.is_side(code) || self.is_border_code(code)
    }

    // What V2e may hold of a vertex: 0 where it is unused, or a half-edge.
    #[tactic(auto, unfolding(rules::specs::Queries::is_entry))]
    fn is_entry(&self, code: u32) -> bool
        ensures { result ≡ is_entry self.now code }
    {
        code == 0 || self.is_half_edge(code)
    }

    #[tactic(auto, using(crate::proofs::Tested::border_facts), unfolding(rules::specs::Queries::read_border_side))]
    pub fn read_border_side(&self, code: u32) -> Option<u32>
        requires { T (is_border_code self.now code) }
        ensures { read_of result ≡ read_border_side self.now code }
    {
        let side = self.b2e[wide(element_of(code)) - 1];
        self.is_side(side).then_some(side)
    }

    #[tactic(auto, unfolding(rules::specs::Queries::read_origin))]
    pub fn read_origin(&self, s: u32) -> Option<u32>
        requires { Side self.now.list s }
        ensures { read_of result ≡ read_origin self.now s }
    {
        let v = origin_of(self.list, s);
        self.is_vertex(v).then_some(v)
    }

    #[tactic(auto, using(theory::specs::Steps::next_side_lem), unfolding(rules::specs::Queries::read_destination))]
    pub fn read_destination(&self, s: u32) -> Option<u32>
        requires { Side self.now.list s }
        ensures { read_of result ≡ read_destination self.now s }
    {
        // The next side's origin: for sides 1 and 2 one corner is read, not the row.
        let v = origin_of(self.list, next_code(self.list, s));
        self.is_vertex(v).then_some(v)
    }

    #[tactic(auto, using(crate::proofs::Tested::border_side), unfolding(rules::specs::Queries::and_then))]
    pub fn border_origin(&self, code: u32) -> Option<u32>
        requires { T (is_border_code self.now code) }
        ensures { read_of result ≡ and_then (read_border_side self.now code) (read_destination self.now) }
    {
        let s = self.read_border_side(code)?;
        self.read_destination(s)
    }

    #[tactic(auto, using(crate::proofs::Tested::border_side), unfolding(rules::specs::Queries::and_then))]
    pub fn border_destination(&self, code: u32) -> Option<u32>
        requires { T (is_border_code self.now code) }
        ensures { read_of result ≡ and_then (read_border_side self.now code) (read_origin self.now) }
    {
        let s = self.read_border_side(code)?;
        self.read_origin(s)
    }
}

impl Fitting<'_> {
    // m, the number of elements.
    pub fn element_count(&self) -> u32
        ensures count { result ≡ elements self.now.list }
        ensures most { result ≤ max_element }
    {
        let mesh = self.mesh;
        (mesh.list.len() / 4) as u32
    }

    // k, the number of border half-edges.
    pub fn border_count(&self) -> u32
        ensures count { result ≡ length self.now.border }
        ensures most { result ≤ max_border }
    {
        let mesh = self.mesh;
        mesh.b2e.len() as u32
    }

    // The E2e entry of side s; 0, which names nothing, for a fourth side in three columns.
    #[tactic(auto, using(theory::specs::Sides::side_from, crate::proofs::Entries::entry_inside, crate::proofs::Entries::row_inside), unfolding(rules::specs::Tables::entry_of, rules::specs::Tables::e2e_slot))]
    fn entry_of(&self, s: u32) -> u32
        requires { Side self.now.list s }
        ensures { result ≡ entry_of self.now.columns self.now.opposites s }
    {
        let mesh = self.mesh;
        if mesh.columns < number_of(s) {
            return 0;
        }
        mesh.e2e[slot_in(mesh.columns, s)]
    }

    #[tactic(auto, unfolding(rules::specs::Queries::read_opposite))]
    pub fn read_opposite(&self, s: u32) -> Option<u32>
        requires { Side self.now.list s }
        ensures { read_of result ≡ read_opposite self.now s }
    {
        let opposed = self.entry_of(s);
        self.mesh.is_half_edge(opposed).then_some(opposed)
    }

    #[tactic(auto, using(crate::proofs::Tested::vertex_facts), unfolding(rules::specs::Queries::read_vertex_entry))]
    pub fn read_vertex_entry(&self, v: u32) -> Option<u32>
        requires { T (is_vertex self.now v) }
        ensures { read_of result ≡ read_vertex_entry self.now v }
    {
        let mesh = self.mesh;
        let entry = mesh.v2e[wide(v) - 1];
        mesh.is_entry(entry).then_some(entry)
    }

    // The border half-edge after a border half-edge.
    #[tactic(auto, using(crate::proofs::Tested::border_end), unfolding(rules::specs::Queries::border_next, rules::specs::Queries::and_then))]
    pub fn border_next(&self, code: u32) -> Option<u32>
        requires { T (is_border_code self.now code) }
        ensures { read_of result ≡ border_next self.now code }
    {
        let mesh = self.mesh;
        let v = mesh.border_destination(code)?;
        let next = mesh.v2e[wide(v) - 1];
        mesh.is_border_code(next).then_some(next)
    }

    // The side with which the ring of a vertex begins; 0 where the vertex is unused.
    #[tactic(auto, using(crate::proofs::Tested::entry_border, crate::proofs::Tested::border_side), unfolding(rules::specs::Queries::start_side, rules::specs::Queries::and_then))]
    pub fn start_side(&self, v: u32) -> Option<u32>
        requires { T (is_vertex self.now v) }
        ensures { read_of result ≡ start_side self.now v }
    {
        let entry = self.read_vertex_entry(v)?;
        if entry == 0 || !is_border(entry) {
            return Some(entry);
        }
        let mesh = self.mesh;
        let s = mesh.read_border_side(entry)?;
        Some(next_code(mesh.list, s))
    }

    // The side after s in the ring that began with a start side; 0 where the ring stops.
    #[tactic(auto, using(crate::proofs::Tested::across_side), unfolding(rules::specs::Queries::onward, rules::specs::Queries::and_then))]
    pub fn ring_next(&self, start: u32, s: u32) -> Option<u32>
        requires { Side self.now.list s }
        ensures { read_of result ≡ onward self.now start s }
    {
        let opposed = self.read_opposite(s)?;
        if is_border(opposed) {
            return Some(0);
        }
        let mesh = self.mesh;
        let turn = next_code(mesh.list, opposed);
        if turn == start {
            return Some(0);
        }
        Some(turn)
    }

    // The border half-edge after x, as border numbers.
    #[tactic(auto, using(crate::proofs::Tested::border_numbered, halfedge::specs::Codes::border_code_lem), unfolding(rules::specs::Queries::next_border, rules::specs::Queries::and_then))]
    pub fn next_border(&self, x: u32) -> Option<u32>
        requires { (1 ≤ x) × (x ≤ length self.now.border) }
        ensures { read_of result ≡ next_border self.now x }
    {
        // That the mesh fits says how great x can be.
        let _ = &self.mesh;
        let border = HalfEdge::border(x);
        let next = self.border_next(border.code)?;
        Some(element_of(next))
    }

    // The border number after x in the loop that began with b; 0 where the loop closes.
    #[tactic(auto, unfolding(rules::specs::Queries::loop_next, rules::specs::Queries::and_then))]
    pub fn loop_next(&self, b: u32, x: u32) -> Option<u32>
        requires { (1 ≤ x) × (x ≤ length self.now.border) }
        ensures { read_of result ≡ loop_next self.now b x }
    {
        let next = self.next_border(x)?;
        if next == b {
            return Some(0);
        }
        Some(next)
    }

    // The vertex before the ring of v: where V2e of v is a border, that border half-edge's destination, else 0.
    #[tactic(auto, using(crate::proofs::Tested::entry_border), unfolding(crate::specs::Readings::prior_vertex, rules::specs::Queries::and_then))]
    pub fn prior_vertex(&self, v: u32) -> Option<u32>
        requires { T (is_vertex self.now v) }
        ensures { read_of result ≡ prior_vertex self.now v }
    {
        let entry = self.read_vertex_entry(v)?;
        if entry == 0 || !is_border(entry) {
            return Some(0);
        }
        self.mesh.border_destination(entry)
    }
}
