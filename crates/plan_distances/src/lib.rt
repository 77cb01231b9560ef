// Kind 3, distances: refusal 6.

#![tactic(auto)]

ghost use Rattle.std.specs.Prelude.{◌≡◌, ◌+◌, ◌*◌, ◌≤◌, ◌<◌, length};
ghost use Rattle.plan_rules.specs.Distances.{highest, as_distance, number_at, placed, distance_in, is_way, way_in, diagonal_ok, distances_ok, TwoOrFour, DistanceTable, Bounded};

// What stands for no way, whatever the width.
pub const NO_WAY: usize = 4294967295;

// No way in two bytes.
pub const NO_WAY_IN_TWO: usize = 65535;

// A number of two bytes as a distance.
fn from_two(number: usize) -> usize
    requires { number < 65536 }
    ensures { (result ≡ as_distance 2 number) × Bounded 2 result }
{
    if number == NO_WAY_IN_TWO {
        return NO_WAY;
    }
    number
}

// The number at place i of the body, rows one after the other.
pub fn number_at(s: &[u8], width: usize, i: usize) -> usize
    requires { TwoOrFour width × (width * i + width ≤ length s.now) }
    ensures { (result ≡ number_at width s.now i) × (result ≤ highest width) × (result < 4294967296) }
{
    if width == 2 {
        return base::read2(s, 2 * i);
    }
    base::read4(s, 4 * i)
}

// The distance at place i of the body.
pub fn distance_at(s: &[u8], width: usize, i: usize) -> usize
    requires { TwoOrFour width × (width * i + width ≤ length s.now) }
    ensures { (result ≡ placed width s.now i) × Bounded width result }
{
    let number = number_at(s, width, i);
    if width == 2 {
        return from_two(number);
    }
    number
}

// The number that stands for the distance from u to e.
pub fn number(s: &[u8], width: usize, n: usize, u: usize, e: usize) -> usize
    requires { (u < n) × (e < n) × DistanceTable width s.now n }
    ensures { (result ≡ number_at width s.now (u * n + e)) × (result ≤ highest width) × (result < 4294967296) }
{
    number_at(s, width, u * n + e)
}

// The number that stands for no way.
pub fn highest(width: usize) -> usize
    requires { TwoOrFour width }
    ensures { (result ≡ highest width) × (result < 4294967296) }
{
    if width == 2 {
        return NO_WAY_IN_TWO;
    }
    NO_WAY
}

// The distance from u to e.
pub fn distance(s: &[u8], width: usize, n: usize, u: usize, e: usize) -> usize
    requires { (u < n) × (e < n) × DistanceTable width s.now n }
    ensures { (result ≡ distance_in width s.now n u e) × Bounded width result }
{
    distance_at(s, width, u * n + e)
}

// Whether a distance is one of a way.
pub fn is_way(distance: usize) -> bool
    ensures { result ≡ is_way distance }
{
    distance != NO_WAY
}

// Whether u has a way to e.
pub fn has_way(s: &[u8], width: usize, n: usize, u: usize, e: usize) -> bool
    requires { (u < n) × (e < n) × DistanceTable width s.now n }
    ensures { result ≡ way_in width s.now n u e }
{
    number(s, width, n, u, e) != highest(width)
}

// Whether the distance of u to itself is 0.
fn diagonal_ok(s: &[u8], width: usize, n: usize, u: usize) -> bool
    requires { (u < n) × DistanceTable width s.now n }
    ensures { result ≡ diagonal_ok width s.now n u }
{
    distance(s, width, n, u, u) == 0
}

pub fn distances_ok(s: &[u8], width: usize, n: usize) -> bool
    requires { DistanceTable width s.now n }
    ensures { result ≡ distances_ok width s.now n }
{
    (0..n).all(|u| diagonal_ok(s, width, n, u))
}
