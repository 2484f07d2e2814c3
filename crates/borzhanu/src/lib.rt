// The calls as hosts make them. Each answers in one 64-bit number: the refusal's number (0: an answer), and two numbers beside it. borzhanu_c exports
// them to C.
// All that is lent stays one by one and the calls stay alike, one for each name, since C calls them so.
#![tactic(auto)]

ghost use Rattle.std.specs.Prelude.{◌≡◌};
ghost use Rattle.answer.specs.Numbers.{packed_answer};
ghost use Rattle.rules.specs.Refusals.{build_answer, build_leaves, recover_answer, recover_list, recover_work};
ghost use Rattle.rules.specs.Queries.{told, columns_answer, opposite_answer, next_answer, previous_answer, element_answer, origin_answer, destination_answer, across_answer};
ghost use Rattle.rules.specs.Queries.{half_edge_border_answer, vertex_border_answer, ring_answer, ring_leaves, neighbours_answer, neighbours_leaves, border_loop_answer};
ghost use Rattle.rules.specs.Queries.{border_loop_leaves, walker_start, walker_step};
ghost use Rattle.rules.specs.Siblings.{siblings_answer, siblings_leaves};
ghost use Rattle.rules.specs.Holes.{holes_answer, holes_leaves};
ghost use Rattle.edit_rules.specs.Swap.{swap_answer, swap_leaves};
ghost use Rattle.edit_rules.specs.Split.{split_answer, split_leaves, split_points};
ghost use Rattle.edit_rules.specs.Contract.{contract_answer, contract_leaves, contract_points};
ghost use Rattle.edit_rules.specs.Shape.{shape_answer, shape_work};
ghost use Rattle.off_rules.specs.Off.{off_answer, off_leaves};
ghost use Rattle.build.specs.Building.{lent};
ghost use Rattle.edits.specs.Holding.{lent_sized};
ghost use Rattle.sibling_map.specs.Mapping.{lent_maps};
ghost use Rattle.holes.specs.Marks.{lent_holes};
ghost use Rattle.borzhanu.specs.Walkers.{walker_in, entries_of};

use reads::Mesh;
use walker::Walker;

// V2e, E2e and the first k entries of B2e of an element list: k and the number of edges.
pub fn borzhanu_build(
    n: u32,
    elements: &[u32],
    v2e: &mut [u32],
    e2e: &mut [u32],
    b2e: &mut [u32],
    work: &mut [u32],
) -> u64
    ensures value { result ≡ packed_answer (build_answer n elements.now (lent v2e.old e2e.old b2e.old work.old)) }
    ensures work_after { lent v2e.new e2e.new b2e.new work.new ≡ build_leaves n elements.now (lent v2e.old e2e.old b2e.old work.old) }
{
    answer::pack(build::build(n, elements, v2e, e2e, b2e, work))
}

// How many columns the E2e of an element list has, 3 or 4: what queries are told.
pub fn borzhanu_columns(n: u32, elements: &[u32]) -> u64
    ensures { result ≡ packed_answer (columns_answer n elements.now) }
{
    answer::pack(columns::columns(n, elements))
}

// The accepted element list of m rows that has exactly these tables.
pub fn borzhanu_recover(
    n: u32,
    m: u32,
    v2e: &[u32],
    e2e: &[u32],
    elements: &mut [u32],
    work: &mut [u32],
) -> u64
    ensures value { result ≡ packed_answer (recover_answer n m v2e.now e2e.now elements.old work.old) }
    ensures elements_after { elements.new ≡ recover_list n m v2e.now e2e.now elements.old work.old }
    ensures work_after { work.new ≡ recover_work n m v2e.now e2e.now elements.old work.old }
{
    answer::pack(recover::recover(n, m, v2e, e2e, elements, work))
}

// The next side of the same two vertices for each side, and the least side of each vertex.
pub fn borzhanu_siblings(
    n: u32,
    elements: &[u32],
    v2e: &mut [u32],
    siblings: &mut [u32],
    work: &mut [u32],
) -> u64
    ensures value { result ≡ packed_answer (siblings_answer n elements.now (lent_maps v2e.old siblings.old work.old)) }
    ensures work_after { lent_maps v2e.new siblings.new work.new ≡ siblings_leaves n elements.now (lent_maps v2e.old siblings.old work.old) }
{
    answer::pack(sibling_map::siblings(n, elements, v2e, siblings, work))
}

// The diagonal of two triangles swapped, in the list and its tables: k and the number of edges. `size` holds n and m, which stay.
pub fn borzhanu_swap(
    size: &mut [u32; 2],
    elements: &mut [u32],
    v2e: &mut [u32],
    e2e: &mut [u32],
    b2e: &mut [u32],
    work: &mut [u32],
    code: u32,
) -> u64
    ensures value { result ≡ packed_answer (swap_answer (lent_sized size.old elements.old v2e.old e2e.old b2e.old work.old) code) }
    ensures work_after { lent_sized size.new elements.new v2e.new e2e.new b2e.new work.new ≡ swap_leaves (lent_sized size.old elements.old v2e.old e2e.old b2e.old work.old) code }
{
    let n = size[0];
    let m = size[1];
    answer::pack(swap::swap(n, m, elements, v2e, e2e, b2e, work, code))
}

// A new vertex on a side, with its midpoint, in the list, its tables and the points: k and the number of edges. `size` holds n and m, and then
// the new n and m.
pub fn borzhanu_split(
    size: &mut [u32; 2],
    elements: &mut [u32],
    v2e: &mut [u32],
    e2e: &mut [u32],
    b2e: &mut [u32],
    points: &mut [f64],
    work: &mut [u32],
    code: u32,
) -> u64
    ensures value { result ≡ packed_answer (split_answer (lent_sized size.old elements.old v2e.old e2e.old b2e.old work.old) points.old code) }
    ensures work_after { lent_sized size.new elements.new v2e.new e2e.new b2e.new work.new ≡ split_leaves (lent_sized size.old elements.old v2e.old e2e.old b2e.old work.old) points.old code }
    ensures points_after { points.new ≡ split_points (lent_sized size.old elements.old v2e.old e2e.old b2e.old work.old) points.old code }
{
    answer::pack(split::split(size, elements, v2e, e2e, b2e, points, work, code))
}

// An edge contracted and the gaps closed, in the list, its tables and the points: k and the number of edges. `size` holds n and m, and then the
// new n and m.
pub fn borzhanu_contract(
    size: &mut [u32; 2],
    elements: &mut [u32],
    v2e: &mut [u32],
    e2e: &mut [u32],
    b2e: &mut [u32],
    points: &mut [f64],
    work: &mut [u32],
    code: u32,
) -> u64
    ensures value { result ≡ packed_answer (contract_answer (lent_sized size.old elements.old v2e.old e2e.old b2e.old work.old) points.old code) }
    ensures work_after { lent_sized size.new elements.new v2e.new e2e.new b2e.new work.new ≡ contract_leaves (lent_sized size.old elements.old v2e.old e2e.old b2e.old work.old) points.old code }
    ensures points_after { points.new ≡ contract_points (lent_sized size.old elements.old v2e.old e2e.old b2e.old work.old) points.old code }
{
    answer::pack(contract::contract(size, elements, v2e, e2e, b2e, points, work, code))
}

// The number of vertices less that of edges, and that of elements added: signed, in two's complement in bits 0 to 55.
pub fn borzhanu_shape(n: u32, elements: &[u32], work: &mut [u32]) -> u64
    ensures value { result ≡ packed_answer (shape_answer n elements.now work.old) }
    ensures work_after { work.new ≡ shape_work n elements.now work.old }
{
    answer::pack(shape::shape(n, elements, work))
}

// The faces of an OFF text as an element list: n and m.
pub fn borzhanu_read_off(text: &[u8], elements: &mut [u32]) -> u64
    ensures value { result ≡ packed_answer (off_answer text.now elements.old) }
    ensures elements_after { elements.new ≡ off_leaves text.now elements.old }
{
    answer::pack(off::read_off(text, elements))
}

// The mesh that a query is told of. Told 0 columns it looks at the list.
fn told<'a>(
    n: u32,
    columns: u32,
    list: &'a [u32],
    v2e: &'a [u32],
    e2e: &'a [u32],
    b2e: &'a [u32],
) -> Mesh<'a>
    ensures { result ≡ told n columns list.now v2e.now e2e.now b2e.now }
{
    let columns = columns::seen(columns, list);
    Mesh {
        n,
        columns,
        list,
        v2e,
        e2e,
        b2e,
    }
}

// The half-edge that runs along the same edge the other way.
pub fn borzhanu_opposite(
    n: u32,
    columns: u32,
    elements: &[u32],
    v2e: &[u32],
    e2e: &[u32],
    b2e: &[u32],
    code: u32,
) -> u64
    ensures { result ≡ packed_answer (opposite_answer (told n columns elements.now v2e.now e2e.now b2e.now) code) }
{
    answer::pack(query::opposite(&told(n, columns, elements, v2e, e2e, b2e), code))
}

// The half-edge after a half-edge, in its element or along the border.
pub fn borzhanu_next(
    n: u32,
    columns: u32,
    elements: &[u32],
    v2e: &[u32],
    e2e: &[u32],
    b2e: &[u32],
    code: u32,
) -> u64
    ensures { result ≡ packed_answer (next_answer (told n columns elements.now v2e.now e2e.now b2e.now) code) }
{
    answer::pack(query::next(&told(n, columns, elements, v2e, e2e, b2e), code))
}

// The side before a side, in its element.
pub fn borzhanu_previous(
    n: u32,
    columns: u32,
    elements: &[u32],
    v2e: &[u32],
    e2e: &[u32],
    b2e: &[u32],
    code: u32,
) -> u64
    ensures { result ≡ packed_answer (previous_answer (told n columns elements.now v2e.now e2e.now b2e.now) code) }
{
    answer::pack(query::previous(&told(n, columns, elements, v2e, e2e, b2e), code))
}

// The element of a side.
pub fn borzhanu_element(
    n: u32,
    columns: u32,
    elements: &[u32],
    v2e: &[u32],
    e2e: &[u32],
    b2e: &[u32],
    code: u32,
) -> u64
    ensures { result ≡ packed_answer (element_answer (told n columns elements.now v2e.now e2e.now b2e.now) code) }
{
    answer::pack(query::element(&told(n, columns, elements, v2e, e2e, b2e), code))
}

// The vertex where a half-edge begins.
pub fn borzhanu_origin(
    n: u32,
    columns: u32,
    elements: &[u32],
    v2e: &[u32],
    e2e: &[u32],
    b2e: &[u32],
    code: u32,
) -> u64
    ensures { result ≡ packed_answer (origin_answer (told n columns elements.now v2e.now e2e.now b2e.now) code) }
{
    answer::pack(query::origin(&told(n, columns, elements, v2e, e2e, b2e), code))
}

// The vertex where a half-edge ends.
pub fn borzhanu_destination(
    n: u32,
    columns: u32,
    elements: &[u32],
    v2e: &[u32],
    e2e: &[u32],
    b2e: &[u32],
    code: u32,
) -> u64
    ensures { result ≡ packed_answer (destination_answer (told n columns elements.now v2e.now e2e.now b2e.now) code) }
{
    answer::pack(query::destination(&told(n, columns, elements, v2e, e2e, b2e), code))
}

// The element on the other side of a side, or 0 at a border.
pub fn borzhanu_across(
    n: u32,
    columns: u32,
    elements: &[u32],
    v2e: &[u32],
    e2e: &[u32],
    b2e: &[u32],
    code: u32,
) -> u64
    ensures { result ≡ packed_answer (across_answer (told n columns elements.now v2e.now e2e.now b2e.now) code) }
{
    answer::pack(query::across(&told(n, columns, elements, v2e, e2e, b2e), code))
}

// 1 for a border half-edge, 0 for a side.
pub fn borzhanu_halfedge_is_border(
    n: u32,
    columns: u32,
    elements: &[u32],
    v2e: &[u32],
    e2e: &[u32],
    b2e: &[u32],
    code: u32,
) -> u64
    ensures { result ≡ packed_answer (half_edge_border_answer (told n columns elements.now v2e.now e2e.now b2e.now) code) }
{
    answer::pack(query::halfedge_is_border(&told(n, columns, elements, v2e, e2e, b2e), code))
}

// 1 for a vertex on a border, 0 for another.
pub fn borzhanu_vertex_is_border(
    n: u32,
    columns: u32,
    elements: &[u32],
    v2e: &[u32],
    e2e: &[u32],
    b2e: &[u32],
    v: u32,
) -> u64
    ensures { result ≡ packed_answer (vertex_border_answer (told n columns elements.now v2e.now e2e.now b2e.now) v) }
{
    answer::pack(query::vertex_is_border(&told(n, columns, elements, v2e, e2e, b2e), v))
}

// The elements about a vertex, in turn order.
pub fn borzhanu_ring(
    n: u32,
    columns: u32,
    elements: &[u32],
    v2e: &[u32],
    e2e: &[u32],
    b2e: &[u32],
    v: u32,
    out: &mut [u32],
) -> u64
    ensures value { result ≡ packed_answer (ring_answer (told n columns elements.now v2e.now e2e.now b2e.now) v out.old) }
    ensures out_after { out.new ≡ ring_leaves (told n columns elements.now v2e.now e2e.now b2e.now) v out.old }
{
    answer::pack(rings::ring(&told(n, columns, elements, v2e, e2e, b2e), v, out))
}

// The vertices joined to a vertex by an edge, in turn order.
pub fn borzhanu_neighbours(
    n: u32,
    columns: u32,
    elements: &[u32],
    v2e: &[u32],
    e2e: &[u32],
    b2e: &[u32],
    v: u32,
    out: &mut [u32],
) -> u64
    ensures value { result ≡ packed_answer (neighbours_answer (told n columns elements.now v2e.now e2e.now b2e.now) v out.old) }
    ensures out_after { out.new ≡ neighbours_leaves (told n columns elements.now v2e.now e2e.now b2e.now) v out.old }
{
    answer::pack(rings::neighbours(&told(n, columns, elements, v2e, e2e, b2e), v, out))
}

// The border numbers of one hole, from b on.
pub fn borzhanu_border_loop(
    n: u32,
    columns: u32,
    elements: &[u32],
    v2e: &[u32],
    e2e: &[u32],
    b2e: &[u32],
    b: u32,
    out: &mut [u32],
) -> u64
    ensures value { result ≡ packed_answer (border_loop_answer (told n columns elements.now v2e.now e2e.now b2e.now) b out.old) }
    ensures out_after { out.new ≡ border_loop_leaves (told n columns elements.now v2e.now e2e.now b2e.now) b out.old }
{
    answer::pack(rings::border_loop(&told(n, columns, elements, v2e, e2e, b2e), b, out))
}

// The hole of each border half-edge and the length of each hole: how many holes there are.
pub fn borzhanu_holes(
    n: u32,
    columns: u32,
    elements: &[u32],
    v2e: &[u32],
    e2e: &[u32],
    b2e: &[u32],
    hole: &mut [u32],
    lengths: &mut [u32],
    work: &mut [u32],
) -> u64
    ensures value { result ≡ packed_answer (holes_answer (told n columns elements.now v2e.now e2e.now b2e.now) (lent_holes hole.old lengths.old work.old)) }
    ensures work_after { lent_holes hole.new lengths.new work.new ≡ holes_leaves (told n columns elements.now v2e.now e2e.now b2e.now) (lent_holes hole.old lengths.old work.old) }
{
    answer::pack(holes::holes(
        &told(n, columns, elements, v2e, e2e, b2e),
        hole,
        lengths,
        work,
    ))
}

// The walker, three numbers, is set to the start of the ring of v.
pub fn borzhanu_walker_start(
    n: u32,
    columns: u32,
    elements: &[u32],
    v2e: &[u32],
    e2e: &[u32],
    b2e: &[u32],
    v: u32,
    walker: &mut [u32; 3],
) -> u64
    ensures value { result ≡ packed_answer (walker_start (told n columns elements.now v2e.now e2e.now b2e.now) v (walker_in walker.old)).answer }
    ensures walker_after { walker.new ≡ entries_of (walker_start (told n columns elements.now v2e.now e2e.now b2e.now) v (walker_in walker.old)).walker }
{
    let mut record = Walker::from(*walker);
    let answered = record.start(&told(n, columns, elements, v2e, e2e, b2e), v);
    *walker = record.into();
    answer::pack(answered)
}

// The walker's element, 0 after the ring's last; the walker moves on.
pub fn borzhanu_walker_step(
    n: u32,
    columns: u32,
    elements: &[u32],
    v2e: &[u32],
    e2e: &[u32],
    b2e: &[u32],
    walker: &mut [u32; 3],
) -> u64
    ensures value { result ≡ packed_answer (walker_step (told n columns elements.now v2e.now e2e.now b2e.now) (walker_in walker.old)).answer }
    ensures walker_after { walker.new ≡ entries_of (walker_step (told n columns elements.now v2e.now e2e.now b2e.now) (walker_in walker.old)).walker }
{
    let mut record = Walker::from(*walker);
    let answered = record.step(&told(n, columns, elements, v2e, e2e, b2e));
    *walker = record.into();
    answer::pack(answered)
}
