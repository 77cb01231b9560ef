// The numbers of the tables that no act changes.

ghost use Rattle.std.specs.Prelude.{◌≡◌};
ghost use Rattle.base.specs.Lent.{lent};
ghost use Rattle.call_rules.specs.Refusals.{steady_checks};
ghost use Rattle.net_rules.specs.Decoded.{instance};
ghost use Rattle.net_rules.specs.WellFormed.{WellFormed};
ghost use Rattle.call_steady.specs.Steady.{SteadyGiven, SteadyCall};

use net_rules::Network;
use plan_contents::entries::DISTANCES;

// Its refusal number; or how many tables are listed.
#[derive(Clone, Copy)]
pub enum SteadyAnswer {
    Refused(u8),
    Listed(usize),
}

// The numbers of a network's tables that no act changes; rows 15 and 9.
fn list_steady(net: Network, rows: &[u64; 64], distances: &[u8], out: &mut [u8]) -> SteadyAnswer
    requires { WellFormed net rows.now distances.now }
    ensures { SteadyGiven (steady_checks (instance net rows.entry distances.entry) out.old)
        (instance net rows.entry distances.entry) result (lent out) }
{
    let mut set = [0u64; 64];
    let Some(count) = net_steady::steady_set(net, rows, distances, &mut set) else {
        return SteadyAnswer::Refused(15);
    };
    if out.len() < 2 * count {
        return SteadyAnswer::Refused(9);
    }
    crate::numbers::write_numbers(&set, count, out);
    SteadyAnswer::Listed(count)
}

// Writes the number of every table of a plan's list that no act changes, two bytes each.
pub fn steady(plan: &[u8], list: usize, out: &mut [u8]) -> SteadyAnswer
    ensures { SteadyCall plan.now list result (lent out) }
{
    let checked = plan_read::refusal::check(plan);
    let refused = call_refuse::numbers::list_refusal(checked, list);
    if refused != 0 {
        return SteadyAnswer::Refused(refused);
    }
    let mut rows = [0u64; 64];
    let net = net_read::open_plan(plan, checked, list, &mut rows);
    let distances = plan_read::parts::part(plan, checked, DISTANCES);
    list_steady(net, &rows, distances, out)
}
