// One activation of a router on the caller's table.

ghost use Rattle.call_run.specs.Activate.{Activates};

use net_activate::activations::{activate_in_one_pass, takes_step};
use plan_contents::entries::DISTANCES;

// Activates a router: the refusal number, or 0.
pub fn activate(plan: &[u8], list: usize, router: usize, table: &mut [u8]) -> u8
    ensures { Activates plan.now list router table.old result table.new }
{
    let checked = plan_read::refusal::check(plan);
    let asked = call_refuse::numbers::router_refusal(checked, list, router);
    if asked != 0 {
        return asked;
    }
    let mut rows = [0u64; 64];
    let net = net_read::open_plan(plan, checked, list, &mut rows);
    let refused = call_refuse::buffers::table_refusal(net, &rows, table);
    if refused != 0 {
        return refused;
    }
    let distances = plan_read::parts::part(plan, checked, DISTANCES);
    if takes_step(net, router) {
        net_activate::activations::activate(net, &rows, distances, router, table);
        return 0;
    }
    activate_in_one_pass(net, &rows, distances, router, table);
    0
}
