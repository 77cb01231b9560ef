// Whether one router relies on another for a list.

ghost use Rattle.call_query.specs.Relies.{Relied};

use plan_contents::entries::DISTANCES;

// Its refusal number, or yes or no.
#[derive(Clone, Copy)]
pub enum ReliesAnswer {
    Refused(u8),
    Yes,
    No,
}

// Whether a router relies on another.
pub fn relies(plan: &[u8], list: usize, router: usize, other: usize) -> ReliesAnswer
    ensures { Relied plan.now list router other result }
{
    let checked = plan_read::refusal::check(plan);
    let refused = call_refuse::numbers::relies_refusal(checked, list, router, other);
    if refused != 0 {
        return ReliesAnswer::Refused(refused);
    }
    let mut rows = [0u64; 64];
    let net = net_read::open_plan(plan, checked, list, &mut rows);
    let distances = plan_read::parts::part(plan, checked, DISTANCES);
    if net_reliance::relies(net, &rows, distances, router, other) {
        return ReliesAnswer::Yes;
    }
    ReliesAnswer::No
}
