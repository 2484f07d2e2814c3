// What the listing program prints for a text, document 01, "The listing program".
#![tactic(auto)]

ghost use Rattle.std.specs.Prelude.{◌≡◌, ◌≤◌, leb, length};
ghost use Rattle.rules.specs.Tables.{columns as columns_in};
ghost use Rattle.build.specs.Building.{lent};
ghost use Rattle.print.specs.Lines.{Written, Counts, shown_if};
ghost use Rattle.listed.specs.Listing.{mesh_lines, listing};
ghost use Rattle.listed.specs.Fit.{Fits};

use answer::Reason;
use halfedge::wide;
use text::ParseError;

// Writes the lines of the mesh, or of build's refusal. The buffers stay parameters, here and below: they are lent one by one to build.
fn list_mesh(
    n: u32,
    columns: u32,
    list: &[u32],
    v2e: &mut [u32],
    e2e: &mut [u32],
    b2e: &mut [u32],
    work: &mut [u32],
    out: &mut [u8],
) -> usize
    requires fits { Fits n list.now (lent v2e.old e2e.old b2e.old work.old) × (columns ≡ columns_in list.now) }
    requires in_bounds { 22_022 ≤ length out.old }
    ensures written { Written out.old 0 (mesh_lines n list.now) out.new result }
    ensures counts { Counts result out.new }
{
    match build::build(n, list, v2e, e2e, b2e, work) {
        Ok(built) => {
            let k = wide(built.first);
            print::print_tables(out, columns, v2e, e2e, &b2e[..k])
        }
        Err(refusal) => {
            let number = refusal.reason.number();
            print::print_refusal(out, number, refusal.first, refusal.second)
        }
    }
}

// Reads the text and writes its lines, with buffers for the largest mesh.
fn list_in(
    text: &[u8],
    list: &mut [u32],
    v2e: &mut [u32],
    e2e: &mut [u32],
    b2e: &mut [u32],
    work: &mut [u32],
    out: &mut [u8],
) -> usize
    requires list_len { (length list.old ≡ 800) × (length v2e.old ≡ 200) × (length e2e.old ≡ 800) × (length b2e.old ≡ 800) × (length work.old ≡ 3_400) }
    requires in_bounds { 22_022 ≤ length out.old }
    ensures written { Written out.old 0 (listing text.now) out.new result }
    ensures counts { Counts result out.new }
{
    match text::parse(text, list) {
        Ok(size) => {
            let n = size.n;
            let v = wide(n);
            let rows = wide(size.m);
            let e = 4 * rows;
            let columns = columns::columns_of(&list[..e]);
            let o = wide(columns) * rows;
            list_mesh(
                n,
                columns,
                &list[..e],
                &mut v2e[..v],
                &mut e2e[..o],
                b2e,
                work,
                out,
            )
        }
        Err(ParseError::Bad { line }) => {
            print::print_refusal(out, Reason::Line.number(), line, 0)
        }
        Err(ParseError::Short) => 0,
    }
}

// Writes what the program prints for the text at the start of `out`, and answers how many bytes that is; nothing where `out` has fewer
// than 22,022 bytes, for which the largest mesh has room.
// Arrays of fixed length stay: the listing takes at most 200 vertices and elements, and no heap.
pub fn list_tables(text: &[u8], out: &mut [u8]) -> usize
    ensures written { Written out.old 0 (shown_if (leb 22_022 (length out.old)) (listing text.now)) out.new result }
    ensures counts { Counts result out.new }
{
    if out.len() < 22_022 {
        return 0;
    }
    let mut list = [0; 800];
    let mut v2e = [0; 200];
    let mut e2e = [0; 800];
    let mut b2e = [0; 800];
    let mut work = [0; 3400];
    list_in(
        text, &mut list, &mut v2e, &mut e2e, &mut b2e, &mut work, out,
    )
}
