// A smallest set of reflectors that makes a list stable once they have the hop step.

ghost use Rattle.std.specs.Prelude.{◌≡◌};
ghost use Rattle.net_rules.specs.Decoded.{instance};
ghost use Rattle.net_rules.specs.WellFormed.{WellFormed};
ghost use Rattle.call_hopset.specs.HopSet.{named_for, HopSetCall};

use net_rules::Network;
use plan_contents::entries::DISTANCES;

// Its refusal number; or the number of the set.
#[derive(Clone, Copy)]
pub enum HopSetAnswer {
    Refused(u8),
    Named(u64),
}

// Row 15, then the set, over a network read from a plan.
fn name_set(net: Network, rows: &[u64; 64], distances: &[u8]) -> HopSetAnswer
    requires { WellFormed net rows.now distances.now }
    ensures { result ≡ named_for (instance net rows.entry distances.entry) }
{
    let mut relied = [0u64; 64];
    let mut closed = [0u64; 64];
    let grouped = net_groups::group_rows(net, rows, distances, &mut relied, &mut closed);
    if 12 < net_groups::how_many(grouped) {
        return HopSetAnswer::Refused(15);
    }
    HopSetAnswer::Named(net_hopset::hop_set(&relied, grouped))
}

// The number of a smallest set of routers that makes the list stable once they have the hop step, the lowest of these. Bit i is the i-th
// router in groups of two or more.
pub fn hop_set(plan: &[u8], list: usize) -> HopSetAnswer
    ensures { HopSetCall plan.now list result }
{
    let checked = plan_read::refusal::check(plan);
    let refused = call_refuse::numbers::list_refusal(checked, list);
    if refused != 0 {
        return HopSetAnswer::Refused(refused);
    }
    let mut rows = [0u64; 64];
    let net = net_read::open_plan(plan, checked, list, &mut rows);
    let distances = plan_read::parts::part(plan, checked, DISTANCES);
    name_set(net, &rows, distances)
}
