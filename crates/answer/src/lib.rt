// What the public calls answer, and the one 64-bit number in which a host gets it.
#![tactic(auto)]

ghost use Rattle.std.specs.Prelude.{◌≡◌};
ghost use Rattle.rules.specs.Elements.{element, number};
ghost use Rattle.rules.specs.Refusals.{gives, refused};
ghost use Rattle.answer.specs.Numbers.{number_in, numbers, placed, packed, packed_answer};

use halfedge::{element_of, number_of};

// Why a call refuses: a row of the table of refusals.
#[derive(Clone, Copy, Debug, PartialEq, Eq)]
pub enum Reason {
    // n, m or the length of the element list.
    Sizes,
    // The length of another buffer.
    Lengths,
    // A corner that is no vertex.
    Unfit,
    // A corner that equals an earlier one of its row.
    Repeated,
    // A side whose two vertices three or more sides join.
    Crowded,
    // A side that another one runs alike with.
    Alike,
    // A vertex without a turn order.
    Unordered,
    // A B2e shorter than k.
    Borders,
    // Tables that no accepted list has.
    NoList,
    // What is asked about isn't there.
    Absent,
    // A table entry that names nothing, or a walk that is overlong.
    Broken,
    // An output too short for the answer.
    Room,
    // A line of the listing program's text.
    Line,
    // An edge that can't be edited so.
    Uneditable,
    // An item of a text.
    Item,
    // A face with neither three nor four corners.
    Face,
    // Two elements that don't meet well.
    Clash,
    // Buffers that can't hold what an edit adds.
    Full,
    // Ends of an edge with a common neighbour besides the third corners.
    Pinched,
    // A vertex that would be left unused.
    Stranded,
    // A number that is in no row.
    Other(u32),
}

// A call's refusal, with the two numbers of its place.
#[derive(Clone, Copy, Debug, PartialEq, Eq)]
pub struct Refusal {
    pub reason: Reason,
    pub first: u32,
    pub second: u32,
}

// The two numbers of an answer.
#[derive(Clone, Copy, Debug, PartialEq, Eq)]
pub struct Given {
    pub first: u32,
    pub second: u32,
}

pub type Answer = Result<Given, Refusal>;

impl Reason {
    pub fn number(self) -> u32
        ensures { result ≡ number_in self }
    {
        match self {
            Reason::Sizes => 1,
            Reason::Lengths => 2,
            Reason::Unfit => 3,
            Reason::Repeated => 4,
            Reason::Crowded => 6,
            Reason::Alike => 7,
            Reason::Unordered => 8,
            Reason::Borders => 9,
            Reason::NoList => 10,
            Reason::Absent => 11,
            Reason::Broken => 12,
            Reason::Room => 13,
            Reason::Line => 14,
            Reason::Uneditable => 15,
            Reason::Item => 16,
            Reason::Face => 17,
            Reason::Clash => 18,
            Reason::Full => 19,
            Reason::Pinched => 20,
            Reason::Stranded => 21,
            Reason::Other(number) => number,
        }
    }
}

// The reason of any number.
impl From<u32> for Reason {
    ghost from_gives = { λ number reason. number_in reason ≡ number };

    fn from(number: u32) -> Reason {
        match number {
            1 => Reason::Sizes,
            2 => Reason::Lengths,
            3 => Reason::Unfit,
            4 => Reason::Repeated,
            6 => Reason::Crowded,
            7 => Reason::Alike,
            8 => Reason::Unordered,
            9 => Reason::Borders,
            10 => Reason::NoList,
            11 => Reason::Absent,
            12 => Reason::Broken,
            13 => Reason::Room,
            14 => Reason::Line,
            15 => Reason::Uneditable,
            16 => Reason::Item,
            17 => Reason::Face,
            18 => Reason::Clash,
            19 => Reason::Full,
            20 => Reason::Pinched,
            21 => Reason::Stranded,
            _ => Reason::Other(number),
        }
    }
}

impl Refusal {
    // At no place.
    pub fn of(reason: Reason) -> Refusal
        ensures { result ≡ placed reason 0 0 }
    {
        Refusal::at(reason, 0, 0)
    }

    pub fn at(reason: Reason, first: u32, second: u32) -> Refusal
        ensures { result ≡ placed reason first second }
    {
        Refusal {
            reason,
            first,
            second,
        }
    }

    // At the side, or the corner where it begins, with this code.
    pub fn at_side(reason: Reason, code: u32) -> Refusal
        ensures { result ≡ placed reason (element code) (number code) }
    {
        Refusal::at(reason, element_of(code), number_of(code))
    }
}

// An answer of one number.
pub fn give(x: u32) -> Answer
    ensures { numbers result ≡ gives x 0 }
{
    give_two(x, 0)
}

pub fn give_two(first: u32, second: u32) -> Answer
    ensures { numbers result ≡ gives first second }
{
    Ok(Given { first, second })
}

// A refusal that names no place.
pub fn refuse(reason: Reason) -> Answer
    ensures { numbers result ≡ refused (number_in reason) 0 0 }
{
    Err(Refusal::of(reason))
}

pub fn refuse_at(reason: Reason, first: u32, second: u32) -> Answer
    ensures { numbers result ≡ refused (number_in reason) first second }
{
    Err(Refusal::at(reason, first, second))
}

// The three numbers side by side: 8 bits for the refusal, 28 for each of the two others.
fn join(number: u32, first: u32, second: u32) -> u64
    ensures { result ≡ packed number first second }
{
    let high = u64::from(number % 256) * 72_057_594_037_927_936;
    let middle = u64::from(first % 268_435_456) * 268_435_456;
    high + middle + u64::from(second % 268_435_456)
}

pub fn pack(a: Answer) -> u64
    ensures { result ≡ packed_answer (numbers a) }
{
    match a {
        Ok(given) => join(0, given.first, given.second),
        Err(refusal) => join(refusal.reason.number(), refusal.first, refusal.second),
    }
}
