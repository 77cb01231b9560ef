// The comparison of two routes by their distances and numbers, and with who tells them; the difference of the distances.

#![tactic(auto)]

ghost use Rattle.std.specs.Prelude.{◌≡◌, not, ◌&&◌, ℕ, ◌≤◌, ◌<◌, pos, ◌-ℤ◌};
ghost use Rattle.std.specs.Bool.{beq};
ghost use Rattle.plan_rules.specs.Distances.{DistanceTable};
ghost use Rattle.route_rules.specs.Instance.{Instance};
ghost use Rattle.route_rules.specs.Preference.{nearer, has_step, prefers, better};
ghost use Rattle.net_prefer.specs.Measured.{Measured, ReadAs, Ordered};

// A route as a router is told it: whether its own egress router tells it, or another passes it on.
#[derive(Clone, Copy)]
pub struct Told {
    pub egress: usize,
    pub direct: bool,
}

// Whether e is nearer than f, or as near and with the lower number, at any router where two numbers are in the order of the distances.
pub fn nearer(first: usize, second: usize, e: usize, f: usize) -> bool
    ensures { (I : Instance) (w : ℕ) → Ordered I w e f first second → result ≡ nearer I w e f }
{
    if second < first {
        return false;
    }
    if first != second {
        return true;
    }
    e < f
}

// Whether the hop step decides between two routes: the router has it, and of the two just one is told by its own egress router.
fn step_decides(step: bool, first: bool, second: bool) -> bool
    ensures { result ≡ (step && not (beq first second)) }
{
    step && first != second
}

// Whether e is preferred to f at any such router, which has the hop step if `step` says so.
pub fn prefers(step: bool, first: usize, second: usize, e: Told, f: Told) -> bool
    ensures { (I : Instance) (w : ℕ) → Ordered I w e.egress f.egress first second → step ≡ has_step I w
        → result ≡ prefers I w e.egress e.direct f.egress f.direct }
{
    if e.egress == f.egress {
        return false;
    }
    if step_decides(step, e.direct, f.direct) {
        return e.direct;
    }
    nearer(first, second, e.egress, f.egress)
}

// Whether e is better than f at any router with these distances to them, either of which may be that of no way.
pub fn better(step: bool, first: usize, second: usize, e: Told, f: Told) -> bool
    ensures { (I : Instance) (w : ℕ) → ReadAs I w e.egress first → ReadAs I w f.egress second → step ≡ has_step I w
        → result ≡ better I w e.egress e.direct f.egress f.direct }
{
    if !plan_distances::is_way(first) {
        return false;
    }
    if !plan_distances::is_way(second) {
        return true;
    }
    prefers(step, first, second, e, f)
}

// Whether e is nearer than f at w, in whatever network has these distances: the numbers that stand for them are in their order.
pub fn nearer_at(distances: &[u8], width: usize, n: usize, w: usize, e: usize, f: usize) -> bool
    requires { (w < n) × (e < n) × (f < n) × DistanceTable width distances.now n }
    ensures { (I : Instance) → Measured I width distances.now n → result ≡ nearer I w e f }
{
    let first = plan_distances::number(distances, width, n, w, e);
    let second = plan_distances::number(distances, width, n, w, f);
    nearer(first, second, e, f)
}

// The first number minus the second, of any two of four bytes.
pub fn difference(first: usize, second: usize) -> i64
    requires { (first < 4294967296) × (second < 4294967296) }
    ensures { result ≡ pos first -ℤ pos second }
{
    first as i64 - second as i64
}
