// The body of kind 3 with distances of another width.

ghost use Rattle.std.specs.Prelude.{◌≡◌, ◌+◌, ◌*◌, ◌≤◌, length};
ghost use Rattle.base.specs.Below.{all_below};
ghost use Rattle.base.specs.Buffer.{written};
ghost use Rattle.base.specs.Bytes.{bytes_of};
ghost use Rattle.base.specs.Tab.{joined};
ghost use Rattle.plan_contents.specs.Header.{router_count};
ghost use Rattle.plan_rules.specs.Converted.{converted_number, distance_fits, distances_fit};
ghost use Rattle.plan_rules.specs.Distances.{body_of, placed, TwoOrFour};
ghost use Rattle.plan_read.specs.Checked.{Accepted};

use plan_contents::entries::DISTANCES;
use plan_distances::{NO_WAY, NO_WAY_IN_TWO, distance_at};
use plan_read::parts;
use plan_read::refusal::CheckedPlan;

// Whether a distance can stand in `to` bytes: one that does is less than no way there.
fn distance_fits(distance: usize, to: usize) -> bool
    requires { TwoOrFour to }
    ensures { result ≡ distance_fits to distance }
{
    if distance == NO_WAY {
        return true;
    }
    if to == 2 {
        return distance < NO_WAY_IN_TWO;
    }
    distance < NO_WAY
}

// Whether the first `count` distances can. All are asked, without a branch, so that the loop becomes vector code.
fn all_fit(s: &[u8], width: usize, count: usize, to: usize) -> bool
    requires { TwoOrFour width × (width * count ≤ length s.now) × TwoOrFour to }
    ensures { result ≡ all_below (λ i. distance_fits to (placed width s.now i)) count }
{
    let mut fitting = 0;
    for i in 0..count {
        fitting += distance_fits(distance_at(s, width, i), to) as usize;
    }
    fitting == count
}

// Whether every distance of the plan can stand in `to` bytes.
pub fn distances_fit(plan: &[u8], checked: CheckedPlan, to: usize) -> bool
    requires { Accepted plan.now checked × TwoOrFour to }
    ensures { result ≡ distances_fit to plan.now }
{
    let s = parts::part(plan, checked, DISTANCES);
    let n = base::wide(checked.n);
    all_fit(s, base::wide(checked.width), n * n, to)
}

// Writes a number in two bytes, low byte first.
fn write2(out: &mut [u8], at: usize, number: usize)
    requires { at + 2 ≤ length out.old }
    ensures { out.new ≡ written out.old at (bytes_of 2 number) }
{
    base::write_bytes(out, at, &((number % 0x1_0000) as u16).to_le_bytes());
}

// Writes a distance in four bytes, low byte first.
fn write4(out: &mut [u8], at: usize, distance: usize)
    requires { at + 4 ≤ length out.old }
    ensures { out.new ≡ written out.old at (bytes_of 4 distance) }
{
    base::write_bytes(out, at, &((distance % 0x1_0000_0000) as u32).to_le_bytes());
}

// Writes a distance at place i of a body that starts at `at`. No way has 255 in each byte, whatever the width.
fn write_distance(out: &mut [u8], at: usize, to: usize, i: usize, distance: usize)
    requires { TwoOrFour to × (at + to * i + to ≤ length out.old) }
    ensures { out.new ≡ written out.old (at + to * i) (bytes_of to distance) }
{
    if to == 2 {
        write2(out, at + 2 * i, distance);
        return;
    }
    write4(out, at + 4 * i, distance);
}

// Writes the first `count` distances, each in `to` bytes, from `at` on.
fn write_distances(s: &[u8], width: usize, count: usize, out: &mut [u8], at: usize, to: usize)
    requires { TwoOrFour width × (width * count ≤ length s.now) × TwoOrFour to × (at + to * count ≤ length out.old) }
    ensures { out.new ≡ written out.old at (joined (λ i. bytes_of to (placed width s.now i)) count) }
{
    for i in 0..count {
        write_distance(out, at, to, i, distance_at(s, width, i));
    }
}

// Writes the body with distances of `to` bytes from `at` on.
pub fn write_body(plan: &[u8], checked: CheckedPlan, to: usize, out: &mut [u8], at: usize)
    requires { Accepted plan.now checked × TwoOrFour to
        × (at + to * (router_count plan.now * router_count plan.now) ≤ length out.old) }
    ensures { out.new ≡ written out.old at
        (body_of to (converted_number to plan.now) (router_count plan.now)) }
{
    let s = parts::part(plan, checked, DISTANCES);
    let n = base::wide(checked.n);
    write_distances(s, base::wide(checked.width), n * n, out, at, to);
}
