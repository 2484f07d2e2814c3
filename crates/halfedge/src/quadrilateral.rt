// The sides of a quadrilateral, QUAD_4 in the figures of CGNS: side 1 runs from corner 1 to corner 2, side 2 from 2 to 3, side 3 from 3 to 4,
// side 4 from 4 to 1.
// Kept as tables by cases, in which 0 is no side: they are read beside the figure.
ghost use Rattle.std.specs.Prelude.{◌≡◌};
ghost use Rattle.rules.specs.Elements.{next_number, previous_number};
ghost use Rattle.halfedge.specs.Rows.{step_in};

// The side after side i; 0 where there is no side i.
pub fn next(i: u32) -> u32
    ensures { result ≡ step_in next_number 4 i }
{
    match i {
        1 => 2,
        2 => 3,
        3 => 4,
        4 => 1,
        _ => 0,
    }
}

// The side before side i; 0 where there is no side i.
pub fn previous(i: u32) -> u32
    ensures { result ≡ step_in previous_number 4 i }
{
    match i {
        1 => 4,
        2 => 1,
        3 => 2,
        4 => 3,
        _ => 0,
    }
}
