// The calls of crates/borzhanu, exported to C under the same names. Each export calls that function and states its clauses again.
// All that is lent stays one by one and the calls stay alike, one for each name, since C calls them so.
#![tactic(auto)]

ghost use Rattle.std.specs.Prelude.{◌≡◌};
ghost use Rattle.answer.specs.Numbers.{packed_answer};
ghost use Rattle.rules.specs.Refusals.{build_answer, build_leaves, recover_answer, recover_list, recover_work};
ghost use Rattle.rules.specs.Queries.{told, columns_answer, opposite_answer, next_answer, previous_answer, element_answer, origin_answer, destination_answer, across_answer};
ghost use Rattle.rules.specs.Queries.{half_edge_border_answer, vertex_border_answer, ring_answer, ring_leaves, neighbours_answer, neighbours_leaves, border_loop_answer};
ghost use Rattle.rules.specs.Queries.{border_loop_leaves, walker_start, walker_step};
ghost use Rattle.rules.specs.Siblings.{siblings_answer, siblings_leaves};
ghost use Rattle.rules.specs.Holes.{holes_answer, holes_leaves};
ghost use Rattle.edit_rules.specs.Swap.{swap_answer, swap_leaves};
ghost use Rattle.edit_rules.specs.Split.{split_answer, split_leaves, split_points};
ghost use Rattle.edit_rules.specs.Contract.{contract_answer, contract_leaves, contract_points};
ghost use Rattle.edit_rules.specs.Shape.{shape_answer, shape_work};
ghost use Rattle.off_rules.specs.Off.{off_answer, off_leaves};
ghost use Rattle.build.specs.Building.{lent};
ghost use Rattle.edits.specs.Holding.{lent_sized};
ghost use Rattle.sibling_map.specs.Mapping.{lent_maps};
ghost use Rattle.holes.specs.Marks.{lent_holes};
ghost use Rattle.borzhanu.specs.Walkers.{walker_in, entries_of};

// V2e, E2e and the first k entries of B2e of an element list: k and the number of edges.
#[unsafe(no_mangle)]
pub extern "C" fn borzhanu_build(
    n: u32,
    elements: &[u32],
    v2e: &mut [u32],
    e2e: &mut [u32],
    b2e: &mut [u32],
    work: &mut [u32],
) -> u64
    ensures value { result ≡ packed_answer (build_answer n elements.now (lent v2e.old e2e.old b2e.old work.old)) }
    ensures work_after { lent v2e.new e2e.new b2e.new work.new ≡ build_leaves n elements.now (lent v2e.old e2e.old b2e.old work.old) }
{
    borzhanu::borzhanu_build(n, elements, v2e, e2e, b2e, work)
}

// How many columns the E2e of an element list has, 3 or 4: what queries are told.
#[unsafe(no_mangle)]
pub extern "C" fn borzhanu_columns(n: u32, elements: &[u32]) -> u64
    ensures { result ≡ packed_answer (columns_answer n elements.now) }
{
    borzhanu::borzhanu_columns(n, elements)
}

// The accepted element list of m rows that has exactly these tables.
#[unsafe(no_mangle)]
pub extern "C" fn borzhanu_recover(
    n: u32,
    m: u32,
    v2e: &[u32],
    e2e: &[u32],
    elements: &mut [u32],
    work: &mut [u32],
) -> u64
    ensures value { result ≡ packed_answer (recover_answer n m v2e.now e2e.now elements.old work.old) }
    ensures elements_after { elements.new ≡ recover_list n m v2e.now e2e.now elements.old work.old }
    ensures work_after { work.new ≡ recover_work n m v2e.now e2e.now elements.old work.old }
{
    borzhanu::borzhanu_recover(n, m, v2e, e2e, elements, work)
}

// The next side of the same two vertices for each side, and the least side of each vertex.
#[unsafe(no_mangle)]
pub extern "C" fn borzhanu_siblings(
    n: u32,
    elements: &[u32],
    v2e: &mut [u32],
    siblings: &mut [u32],
    work: &mut [u32],
) -> u64
    ensures value { result ≡ packed_answer (siblings_answer n elements.now (lent_maps v2e.old siblings.old work.old)) }
    ensures work_after { lent_maps v2e.new siblings.new work.new ≡ siblings_leaves n elements.now (lent_maps v2e.old siblings.old work.old) }
{
    borzhanu::borzhanu_siblings(n, elements, v2e, siblings, work)
}

// The diagonal of two triangles swapped, in the list and its tables: k and the number of edges. `size` holds n and m, which stay.
#[unsafe(no_mangle)]
pub extern "C" fn borzhanu_swap(
    size: &mut [u32; 2],
    elements: &mut [u32],
    v2e: &mut [u32],
    e2e: &mut [u32],
    b2e: &mut [u32],
    work: &mut [u32],
    code: u32,
) -> u64
    ensures value { result ≡ packed_answer (swap_answer (lent_sized size.old elements.old v2e.old e2e.old b2e.old work.old) code) }
    ensures work_after { lent_sized size.new elements.new v2e.new e2e.new b2e.new work.new ≡ swap_leaves (lent_sized size.old elements.old v2e.old e2e.old b2e.old work.old) code }
{
    borzhanu::borzhanu_swap(size, elements, v2e, e2e, b2e, work, code)
}

// A new vertex on a side, with its midpoint, in the list, its tables and the points: k and the number of edges. `size` holds n and m, and then
// the new n and m.
#[unsafe(no_mangle)]
pub extern "C" fn borzhanu_split(
    size: &mut [u32; 2],
    elements: &mut [u32],
    v2e: &mut [u32],
    e2e: &mut [u32],
    b2e: &mut [u32],
    points: &mut [f64],
    work: &mut [u32],
    code: u32,
) -> u64
    ensures value { result ≡ packed_answer (split_answer (lent_sized size.old elements.old v2e.old e2e.old b2e.old work.old) points.old code) }
    ensures work_after { lent_sized size.new elements.new v2e.new e2e.new b2e.new work.new ≡ split_leaves (lent_sized size.old elements.old v2e.old e2e.old b2e.old work.old) points.old code }
    ensures points_after { points.new ≡ split_points (lent_sized size.old elements.old v2e.old e2e.old b2e.old work.old) points.old code }
{
    borzhanu::borzhanu_split(size, elements, v2e, e2e, b2e, points, work, code)
}

// An edge contracted and the gaps closed, in the list, its tables and the points: k and the number of edges. `size` holds n and m, and then the
// new n and m.
#[unsafe(no_mangle)]
pub extern "C" fn borzhanu_contract(
    size: &mut [u32; 2],
    elements: &mut [u32],
    v2e: &mut [u32],
    e2e: &mut [u32],
    b2e: &mut [u32],
    points: &mut [f64],
    work: &mut [u32],
    code: u32,
) -> u64
    ensures value { result ≡ packed_answer (contract_answer (lent_sized size.old elements.old v2e.old e2e.old b2e.old work.old) points.old code) }
    ensures work_after { lent_sized size.new elements.new v2e.new e2e.new b2e.new work.new ≡ contract_leaves (lent_sized size.old elements.old v2e.old e2e.old b2e.old work.old) points.old code }
    ensures points_after { points.new ≡ contract_points (lent_sized size.old elements.old v2e.old e2e.old b2e.old work.old) points.old code }
{
    borzhanu::borzhanu_contract(size, elements, v2e, e2e, b2e, points, work, code)
}

// The number of vertices less that of edges, and that of elements added: signed, in two's complement in bits 0 to 55.
#[unsafe(no_mangle)]
pub extern "C" fn borzhanu_shape(n: u32, elements: &[u32], work: &mut [u32]) -> u64
    ensures value { result ≡ packed_answer (shape_answer n elements.now work.old) }
    ensures work_after { work.new ≡ shape_work n elements.now work.old }
{
    borzhanu::borzhanu_shape(n, elements, work)
}

// The faces of an OFF text as an element list: n and m.
#[unsafe(no_mangle)]
pub extern "C" fn borzhanu_read_off(text: &[u8], elements: &mut [u32]) -> u64
    ensures value { result ≡ packed_answer (off_answer text.now elements.old) }
    ensures elements_after { elements.new ≡ off_leaves text.now elements.old }
{
    borzhanu::borzhanu_read_off(text, elements)
}

// The half-edge that runs along the same edge the other way.
#[unsafe(no_mangle)]
pub extern "C" fn borzhanu_opposite(
    n: u32,
    columns: u32,
    elements: &[u32],
    v2e: &[u32],
    e2e: &[u32],
    b2e: &[u32],
    code: u32,
) -> u64
    ensures { result ≡ packed_answer (opposite_answer (told n columns elements.now v2e.now e2e.now b2e.now) code) }
{
    borzhanu::borzhanu_opposite(n, columns, elements, v2e, e2e, b2e, code)
}

// The half-edge after a half-edge, in its element or along the border.
#[unsafe(no_mangle)]
pub extern "C" fn borzhanu_next(
    n: u32,
    columns: u32,
    elements: &[u32],
    v2e: &[u32],
    e2e: &[u32],
    b2e: &[u32],
    code: u32,
) -> u64
    ensures { result ≡ packed_answer (next_answer (told n columns elements.now v2e.now e2e.now b2e.now) code) }
{
    borzhanu::borzhanu_next(n, columns, elements, v2e, e2e, b2e, code)
}

// The side before a side, in its element.
#[unsafe(no_mangle)]
pub extern "C" fn borzhanu_previous(
    n: u32,
    columns: u32,
    elements: &[u32],
    v2e: &[u32],
    e2e: &[u32],
    b2e: &[u32],
    code: u32,
) -> u64
    ensures { result ≡ packed_answer (previous_answer (told n columns elements.now v2e.now e2e.now b2e.now) code) }
{
    borzhanu::borzhanu_previous(n, columns, elements, v2e, e2e, b2e, code)
}

// The element of a side.
#[unsafe(no_mangle)]
pub extern "C" fn borzhanu_element(
    n: u32,
    columns: u32,
    elements: &[u32],
    v2e: &[u32],
    e2e: &[u32],
    b2e: &[u32],
    code: u32,
) -> u64
    ensures { result ≡ packed_answer (element_answer (told n columns elements.now v2e.now e2e.now b2e.now) code) }
{
    borzhanu::borzhanu_element(n, columns, elements, v2e, e2e, b2e, code)
}

// The vertex where a half-edge begins.
#[unsafe(no_mangle)]
pub extern "C" fn borzhanu_origin(
    n: u32,
    columns: u32,
    elements: &[u32],
    v2e: &[u32],
    e2e: &[u32],
    b2e: &[u32],
    code: u32,
) -> u64
    ensures { result ≡ packed_answer (origin_answer (told n columns elements.now v2e.now e2e.now b2e.now) code) }
{
    borzhanu::borzhanu_origin(n, columns, elements, v2e, e2e, b2e, code)
}

// The vertex where a half-edge ends.
#[unsafe(no_mangle)]
pub extern "C" fn borzhanu_destination(
    n: u32,
    columns: u32,
    elements: &[u32],
    v2e: &[u32],
    e2e: &[u32],
    b2e: &[u32],
    code: u32,
) -> u64
    ensures { result ≡ packed_answer (destination_answer (told n columns elements.now v2e.now e2e.now b2e.now) code) }
{
    borzhanu::borzhanu_destination(n, columns, elements, v2e, e2e, b2e, code)
}

// The element on the other side of a side, or 0 at a border.
#[unsafe(no_mangle)]
pub extern "C" fn borzhanu_across(
    n: u32,
    columns: u32,
    elements: &[u32],
    v2e: &[u32],
    e2e: &[u32],
    b2e: &[u32],
    code: u32,
) -> u64
    ensures { result ≡ packed_answer (across_answer (told n columns elements.now v2e.now e2e.now b2e.now) code) }
{
    borzhanu::borzhanu_across(n, columns, elements, v2e, e2e, b2e, code)
}

// 1 for a border half-edge, 0 for a side.
#[unsafe(no_mangle)]
pub extern "C" fn borzhanu_halfedge_is_border(
    n: u32,
    columns: u32,
    elements: &[u32],
    v2e: &[u32],
    e2e: &[u32],
    b2e: &[u32],
    code: u32,
) -> u64
    ensures { result ≡ packed_answer (half_edge_border_answer (told n columns elements.now v2e.now e2e.now b2e.now) code) }
{
    borzhanu::borzhanu_halfedge_is_border(n, columns, elements, v2e, e2e, b2e, code)
}

// 1 for a vertex on a border, 0 for another.
#[unsafe(no_mangle)]
pub extern "C" fn borzhanu_vertex_is_border(
    n: u32,
    columns: u32,
    elements: &[u32],
    v2e: &[u32],
    e2e: &[u32],
    b2e: &[u32],
    v: u32,
) -> u64
    ensures { result ≡ packed_answer (vertex_border_answer (told n columns elements.now v2e.now e2e.now b2e.now) v) }
{
    borzhanu::borzhanu_vertex_is_border(n, columns, elements, v2e, e2e, b2e, v)
}

// The elements about a vertex, in turn order.
#[unsafe(no_mangle)]
pub extern "C" fn borzhanu_ring(
    n: u32,
    columns: u32,
    elements: &[u32],
    v2e: &[u32],
    e2e: &[u32],
    b2e: &[u32],
    v: u32,
    out: &mut [u32],
) -> u64
    ensures value { result ≡ packed_answer (ring_answer (told n columns elements.now v2e.now e2e.now b2e.now) v out.old) }
    ensures out_after { out.new ≡ ring_leaves (told n columns elements.now v2e.now e2e.now b2e.now) v out.old }
{
    borzhanu::borzhanu_ring(n, columns, elements, v2e, e2e, b2e, v, out)
}

// The vertices joined to a vertex by an edge, in turn order.
#[unsafe(no_mangle)]
pub extern "C" fn borzhanu_neighbours(
    n: u32,
    columns: u32,
    elements: &[u32],
    v2e: &[u32],
    e2e: &[u32],
    b2e: &[u32],
    v: u32,
    out: &mut [u32],
) -> u64
    ensures value { result ≡ packed_answer (neighbours_answer (told n columns elements.now v2e.now e2e.now b2e.now) v out.old) }
    ensures out_after { out.new ≡ neighbours_leaves (told n columns elements.now v2e.now e2e.now b2e.now) v out.old }
{
    borzhanu::borzhanu_neighbours(n, columns, elements, v2e, e2e, b2e, v, out)
}

// The border numbers of one hole, from b on.
#[unsafe(no_mangle)]
pub extern "C" fn borzhanu_border_loop(
    n: u32,
    columns: u32,
    elements: &[u32],
    v2e: &[u32],
    e2e: &[u32],
    b2e: &[u32],
    b: u32,
    out: &mut [u32],
) -> u64
    ensures value { result ≡ packed_answer (border_loop_answer (told n columns elements.now v2e.now e2e.now b2e.now) b out.old) }
    ensures out_after { out.new ≡ border_loop_leaves (told n columns elements.now v2e.now e2e.now b2e.now) b out.old }
{
    borzhanu::borzhanu_border_loop(n, columns, elements, v2e, e2e, b2e, b, out)
}

// The hole of each border half-edge and the length of each hole: how many holes there are.
#[unsafe(no_mangle)]
pub extern "C" fn borzhanu_holes(
    n: u32,
    columns: u32,
    elements: &[u32],
    v2e: &[u32],
    e2e: &[u32],
    b2e: &[u32],
    hole: &mut [u32],
    lengths: &mut [u32],
    work: &mut [u32],
) -> u64
    ensures value { result ≡ packed_answer (holes_answer (told n columns elements.now v2e.now e2e.now b2e.now) (lent_holes hole.old lengths.old work.old)) }
    ensures work_after { lent_holes hole.new lengths.new work.new ≡ holes_leaves (told n columns elements.now v2e.now e2e.now b2e.now) (lent_holes hole.old lengths.old work.old) }
{
    borzhanu::borzhanu_holes(n, columns, elements, v2e, e2e, b2e, hole, lengths, work)
}

// The walker, three numbers, is set to the start of the ring of v.
#[unsafe(no_mangle)]
pub extern "C" fn borzhanu_walker_start(
    n: u32,
    columns: u32,
    elements: &[u32],
    v2e: &[u32],
    e2e: &[u32],
    b2e: &[u32],
    v: u32,
    walker: &mut [u32; 3],
) -> u64
    ensures value { result ≡ packed_answer (walker_start (told n columns elements.now v2e.now e2e.now b2e.now) v (walker_in walker.old)).answer }
    ensures walker_after { walker.new ≡ entries_of (walker_start (told n columns elements.now v2e.now e2e.now b2e.now) v (walker_in walker.old)).walker }
{
    borzhanu::borzhanu_walker_start(n, columns, elements, v2e, e2e, b2e, v, walker)
}

// The walker's element, 0 after the ring's last; the walker moves on.
#[unsafe(no_mangle)]
pub extern "C" fn borzhanu_walker_step(
    n: u32,
    columns: u32,
    elements: &[u32],
    v2e: &[u32],
    e2e: &[u32],
    b2e: &[u32],
    walker: &mut [u32; 3],
) -> u64
    ensures value { result ≡ packed_answer (walker_step (told n columns elements.now v2e.now e2e.now b2e.now) (walker_in walker.old)).answer }
    ensures walker_after { walker.new ≡ entries_of (walker_step (told n columns elements.now v2e.now e2e.now b2e.now) (walker_in walker.old)).walker }
{
    borzhanu::borzhanu_walker_step(n, columns, elements, v2e, e2e, b2e, walker)
}
