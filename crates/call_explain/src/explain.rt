// Why one router relies on another for a list, or does not.

ghost use Rattle.call_explain.specs.Explain.{Explains};

use plan_contents::entries::DISTANCES;
use route_explain_rules::explanation::Explanation;

// By which rule a router relies on another, or the first reason why it does not.
pub fn explain(plan: &[u8], list: usize, router: usize, other: usize) -> Explanation
    ensures { Explains plan.now list router other result }
{
    let checked = plan_read::refusal::check(plan);
    let refused = call_refuse::numbers::relies_refusal(checked, list, router, other);
    if refused != 0 {
        return Explanation::Refused(refused);
    }
    let mut rows = [0u64; 64];
    let net = net_read::open_plan(plan, checked, list, &mut rows);
    let distances = plan_read::parts::part(plan, checked, DISTANCES);
    net_explain::explained(net, &rows, distances, router, other)
}
