// Two egress routers compared at a router.

ghost use Rattle.std.specs.Prelude.{◌≡◌, ℕ, ◌<◌};
ghost use Rattle.plan_contents.specs.Header.{router_count};
ghost use Rattle.plan_read.specs.Checked.{Accepted};
ghost use Rattle.route_rules.specs.Instance.{Instance};
ghost use Rattle.route_rules.specs.Preference.{has_step, margin_of};
ghost use Rattle.net_rules.specs.FromPlan.{instance_of};
ghost use Rattle.net_prefer.specs.Measured.{ReadAs};
ghost use Rattle.call_compare.specs.Compare.{preferred_of, margin_case, Compares};

use net_prefer::{Told, difference};
use plan_contents::entries::{DISTANCES, ROUTERS};
use plan_distances::is_way;
use plan_read::parts::part;
use plan_read::refusal::CheckedPlan;

// Which of two routes is better. Neither is of a router and itself, nor of two that there is no way to.
#[derive(Clone, Copy)]
pub enum Preferred {
    Neither = 0,
    First = 1,
    Second = 2,
}

// What a comparison says: its refusal number, or which of the two is better and by how much: the first distance minus the second, `None`
// unless there is a way to both.
#[derive(Clone, Copy)]
pub enum CompareAnswer {
    Refused(u8),
    Compared(Preferred, Option<i64>),
}

// The margin of two routes at any router with these distances to them.
fn margin_of(first: usize, second: usize) -> Option<i64>
    requires { (first < 4294967296) × (second < 4294967296) }
    ensures { (I : Instance) (w e f : ℕ) → ReadAs I w e first → ReadAs I w f second → result ≡ margin_case (margin_of I w e f) }
{
    if is_way(first) && is_way(second) {
        Some(difference(first, second))
    } else {
        None
    }
}

// Which of e and f is better at any router with these distances to them, which has the hop step if `step` says so.
fn which_better(step: bool, first: usize, second: usize, e: Told, f: Told) -> Preferred
    ensures { (I : Instance) (w : ℕ) → ReadAs I w e.egress first → ReadAs I w f.egress second → step ≡ has_step I w
        → result ≡ preferred_of I w e.egress e.direct f.egress f.direct }
{
    if net_prefer::better(step, first, second, e, f) {
        return Preferred::First;
    }
    if net_prefer::better(step, second, first, f, e) {
        return Preferred::Second;
    }
    Preferred::Neither
}

// Whether a router of a plan that is not refused has the hop step, by its role. Every list shares the roles.
fn has_step(plan: &[u8], checked: CheckedPlan, router: usize) -> bool
    requires { Accepted plan.now checked × (router < router_count plan.now) }
    ensures { result ≡ has_step (instance_of plan.now 0) router }
{
    let routers = part(plan, checked, ROUTERS);
    plan_routers::has_step(routers[5 * router])
}

// Which of two egress routers is better at a router, and by how much. `first_direct` says that the first itself told its route, and
// `second_direct` that the second did; at a router without the hop step neither matters.
pub fn compare(
    plan: &[u8],
    router: usize,
    first: usize,
    second: usize,
    first_direct: bool,
    second_direct: bool,
) -> CompareAnswer
    ensures { Compares plan.now router first first_direct second second_direct result }
{
    let checked = plan_read::refusal::check(plan);
    let refused = call_refuse::numbers::compare_refusal(checked, router, first, second);
    if refused != 0 {
        return CompareAnswer::Refused(refused);
    }
    let n = checked.n as usize;
    let width = checked.width as usize;
    let distances = part(plan, checked, DISTANCES);
    let to_first = plan_distances::distance(distances, width, n, router, first);
    let to_second = plan_distances::distance(distances, width, n, router, second);
    let step = has_step(plan, checked, router);
    let e = Told {
        egress: first,
        direct: first_direct,
    };
    let f = Told {
        egress: second,
        direct: second_direct,
    };
    let preferred = which_better(step, to_first, to_second, e, f);
    let margin = margin_of(to_first, to_second);
    CompareAnswer::Compared(preferred, margin)
}
