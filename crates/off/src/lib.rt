// Reading OFF files, document 02, point 3: a text is judged whole, then its faces are written.
// Text and place stay two parameters, as in crate off_items.
#![tactic(auto)]

ghost use Rattle.std.specs.Prelude.{◌++◌, ◌≡◌, not, ◌+◌, ◌*◌, ◌≤◌, ◌<◌, eqb, min, length, drop, count_by, IfOk, IfErr};
ghost use Rattle.lists.specs.Tests.{within};
ghost use Rattle.lists.specs.Search.{tab};
ghost use Rattle.answer.specs.Numbers.{numbers};
ghost use Rattle.off_rules.specs.Off.{items, the_m, face_item, corner_entry, off_answer, off_leaves};
ghost use Rattle.off_items.specs.Parting.{line_at, rest};
ghost use Rattle.off.specs.Judging.{Read, BadAt};
ghost use Rattle.off.specs.Faces.{FaceRead, unfit_after, HeadRead, FacesRead, Form};
ghost use Rattle.off.specs.Writing.{Fit, RowRead, Sound, At};
ghost use Rattle.off.specs.Answers.{Answered};

use answer::{Answer, Reason, give_two, refuse, refuse_at};
use buffers::put_four;
use halfedge::{HalfEdge, wide};
use off_items::{Found, Kind, item_from, next, pass};

// The first two counts of a text, and the place after its head.
#[derive(Clone, Copy)]
struct Head {
    n: u32,
    m: u32,
    end: usize,
}

// The first face that has neither three nor four corners, and the place after the faces.
#[derive(Clone, Copy)]
struct Faces {
    unfit: Option<u32>,
    end: usize,
}

// A text in form, by its counts, its first such face and the place before the faces.
#[derive(Clone, Copy)]
struct Judged {
    n: u32,
    m: u32,
    unfit: Option<u32>,
    faces: usize,
}

// The word and the three counts; or the place of a bad item, as below.
fn read_head(text: &[u8]) -> Result<Head, usize>
    ensures good { IfOk result (HeadRead text.now) }
    ensures bad { IfErr result (BadAt text.now) }
{
    let word = next(text, 0, Kind::Word)?;
    let n = next(text, word.end, Kind::Whole)?;
    let m = next(text, n.end, Kind::Whole)?;
    let edges = next(text, m.end, Kind::Whole)?;
    Ok(Head {
        n: n.value,
        m: m.value,
        end: edges.end,
    })
}

// The face whose corner count is the first item from p on: the count, and the place after the corners.
fn face(text: &[u8], p: usize) -> Result<Found, usize>
    requires { p ≤ length text.now }
    ensures { FaceRead text.now p result }
{
    let count = next(text, p, Kind::Whole)?;
    let end = pass(text, count.end, count.value, Kind::Whole)?;
    Ok(Found {
        value: count.value,
        end,
    })
}

fn is_unfit(corners: u32) -> bool
    ensures { result ≡ not (within 3 4 corners) }
{
    corners < 3 || 4 < corners
}

// The first unfit face, once face f with so many corners is known: `unfit` where there was one before.
fn unfit_after(unfit: Option<u32>, f: u32, corners: u32) -> Option<u32>
    ensures { result ≡ unfit_after unfit f corners }
{
    unfit.or(is_unfit(corners).then_some(f))
}

// The m faces from p on.
fn pass_faces(text: &[u8], p: usize, m: u32) -> Result<Faces, usize>
    requires { Read text.now (face_item (items text.now) 0) p × (m ≡ the_m (items text.now)) }
    ensures good { IfOk result (FacesRead text.now) }
    ensures bad { IfErr result (BadAt text.now) }
{
    let mut end = p;
    let mut unfit = None;
    for f in 0..m {
        let face = face(text, end)?;
        unfit = unfit_after(unfit, f + 1, face.value);
        end = face.end;
    }
    Ok(Faces { unfit, end })
}

// The counts and faces of a text in form, judged from its first item to its end.
fn judge(text: &[u8]) -> Result<Judged, usize>
    ensures form { IfOk result (Form text.now) }
    ensures bad { IfErr result (BadAt text.now) }
{
    let head = read_head(text)?;
    let vertices = pass(text, head.end, 3 * head.n, Kind::Decimal)?;
    let faces = pass_faces(text, vertices, head.m)?;
    let end = item_from(text, faces.end);
    if end < text.len() {
        return Err(end);
    }
    Ok(Judged {
        n: head.n,
        m: head.m,
        unfit: faces.unfit,
        faces: vertices,
    })
}

// Kept as a sum: a long text takes 1.2 times as long by `filter` and `count`.
fn newlines_in(part: &[u8]) -> usize
    ensures { result ≡ count_by (λ b. eqb b 10) part.now }
{
    let mut newlines = 0;
    for b in part {
        newlines += usize::from(*b == b'\n');
    }
    newlines
}

// The line of place p; 2^28 − 1 stands for every greater one.
fn line_of(text: &[u8], p: usize) -> u32
    requires { p ≤ length text.now }
    ensures { result ≡ min (line_at text.now p) 268_435_455 }
{
    let newlines = newlines_in(&text[..p]);
    if 268_435_455 <= newlines {
        return 268_435_455;
    }
    newlines as u32 + 1
}

// The row of a face, and the place after the face.
#[derive(Clone, Copy)]
struct Row {
    row: [u32; 4],
    end: usize,
}

// The face whose corner count is the first item from p on: its corners counted from 1, then 0 for a triangle.
fn read_row(text: &[u8], p: usize) -> Row
    requires { (p ≤ length text.now) × Fit (rest text.now p) }
    ensures { RowRead text.now p result.row result.end }
{
    let count = next(text, p, Kind::Whole).unwrap();
    let mut row = [0; 4];
    let mut end = count.end;
    for i in 0..wide(count.value) {
        let corner = next(text, end, Kind::Whole).unwrap();
        row[i] = corner.value + 1;
        end = corner.end;
    }
    Row { row, end }
}

// Writes the rows of the m faces from p on.
fn put_rows(text: &[u8], list: &mut [u32], p: usize, m: usize)
    requires { Sound (items text.now) × (m ≡ the_m (items text.now)) × (4 * m ≤ length list.old) × At text.now 0 p }
    ensures { list.new ≡ tab (4 * m) (corner_entry (items text.now)) ++ drop (4 * m) list.old }
{
    let mut at = p;
    for f in 0..m {
        let face = read_row(text, at);
        put_four(list, 4 * f, face.row);
        at = face.end;
    }
}

// What a text in form answers, with its faces written where the answer is no refusal.
fn write_form(text: &[u8], list: &mut [u32], form: Judged) -> Answer
    requires { Form text.now form }
    ensures { Answered text.now list.old (numbers result) list.new }
{
    let n = form.n;
    let m = form.m;
    if HalfEdge::MAX_VERTEX < n || HalfEdge::MAX_ELEMENT < m {
        return refuse(Reason::Sizes);
    }
    if let Some(unfit) = form.unfit {
        return refuse_at(Reason::Face, unfit, 0);
    }
    if list.len() < wide(4 * m) {
        return refuse_at(Reason::Room, 4 * m, 0);
    }
    put_rows(text, list, form.faces, wide(m));
    give_two(n, m)
}

// The number of vertices and of elements of an OFF text, whose faces are then the first rows of the list; or a refusal, which leaves the
// list as it was.
pub fn read_off(text: &[u8], list: &mut [u32]) -> Answer
    ensures result_value { numbers result ≡ off_answer text.now list.old }
    ensures list_after { list.new ≡ off_leaves text.now list.old }
{
    match judge(text) {
        Ok(form) => write_form(text, list, form),
        Err(p) => refuse_at(Reason::Item, line_of(text, p), 0),
    }
}
