// The points of vertices, document 02, points 6 and 8: three f64 numbers for each vertex.
#![tactic(auto)]

ghost use Rattle.std.specs.Prelude.{◌≡◌, [], ◌∷◌, ◌+◌, ◌*◌, ◌≤◌, length};
ghost use Rattle.edit_rules.specs.Split.{coordinate, with_point};
ghost use Rattle.edit_rules.specs.Split.{midpoint as midpoint_of};
ghost use Rattle.edit_rules.specs.Split.{midway as midway_of};
ghost use Rattle.edit_rules.specs.Contract.{without_point};

use halfedge::wide;

#[derive(Clone, Copy)]
pub struct Point {
    pub x: f64,
    pub y: f64,
    pub z: f64,
}

fn midway(x: f64, y: f64) -> f64
    ensures { result ≡ midway_of x y }
{
    (x + y) * 0.5
}

impl Point {
    // The point of vertex v.
    fn of(points: &[f64], v: u32) -> Point
        requires { (1 ≤ v) × (3 * v ≤ length points.now) }
        ensures { (result.x ≡ coordinate points.now v 0)
            × (result.y ≡ coordinate points.now v 1)
            × (result.z ≡ coordinate points.now v 2) }
    {
        let i = 3 * wide(v - 1);
        Point {
            x: points[i],
            y: points[i + 1],
            z: points[i + 2],
        }
    }

    pub fn midpoint(self, other: Point) -> Point
        ensures { (result.x ≡ midway_of self.x other.x)
            × (result.y ≡ midway_of self.y other.y)
            × (result.z ≡ midway_of self.z other.z) }
    {
        Point {
            x: midway(self.x, other.x),
            y: midway(self.y, other.y),
            z: midway(self.z, other.z),
        }
    }

    // It becomes the point of the vertex after n others.
    fn put(self, n: u32, points: &mut [f64])
        requires { 3 * n + 3 ≤ length points.old }
        ensures { points.new ≡ with_point n (self.x ∷ self.y ∷ self.z ∷ []) points.old }
    {
        let i = 3 * wide(n);
        points[i] = self.x;
        points[i + 1] = self.y;
        points[i + 2] = self.z;
    }
}

// The midpoint of a and b becomes the point of vertex n + 1.
pub fn place_midpoint(points: &mut [f64], n: u32, a: u32, b: u32)
    requires { (1 ≤ a) × (a ≤ n) × (1 ≤ b) × (b ≤ n) × (3 * n + 3 ≤ length points.old) }
    ensures { points.new ≡ with_point n (midpoint_of points.old a b) points.old }
{
    let p = Point::of(points, a);
    let q = Point::of(points, b);
    p.midpoint(q).put(n, points);
}

// The last of n points takes the place of that of vertex b, and zeros take its own.
pub fn close_point(points: &mut [f64], n: u32, b: u32)
    requires { (1 ≤ b) × (b ≤ n) × (3 * n ≤ length points.old) }
    ensures { points.new ≡ without_point n b points.old }
{
    let last = Point::of(points, n);
    last.put(b - 1, points);
    let zero = Point {
        x: 0.0,
        y: 0.0,
        z: 0.0,
    };
    zero.put(n - 1, points);
}
