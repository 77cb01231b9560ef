// The verdict of a plan for one of its lists.

ghost use Rattle.std.specs.Prelude.{◌≡◌};
ghost use Rattle.base.specs.Lent.{lent};
ghost use Rattle.call_verdict.specs.Verdict.{answer_of, VerdictCall};

use net_verdict::Assessment;
use plan_contents::entries::DISTANCES;

// Its refusal number; or stable, with the highest rank; or suspect, with the cycle's length.
#[derive(Clone, Copy)]
pub enum VerdictAnswer {
    Refused(u8),
    Stable(usize),
    Suspect(usize),
}

fn answer(found: Assessment) -> VerdictAnswer
    ensures { result ≡ answer_of found }
{
    match found {
        Assessment::Stable(highest) => VerdictAnswer::Stable(highest),
        Assessment::Suspect(length) => VerdictAnswer::Suspect(length),
    }
}

// The verdict of a plan for a list. Writes the labels; if stable, the ranks and the settled table, and else the cycle.
pub fn verdict(
    plan: &[u8],
    list: usize,
    labels: &mut [u8],
    ranks: &mut [u8],
    table: &mut [u8],
    cycle: &mut [u8],
) -> VerdictAnswer
    ensures { VerdictCall plan.now list result (lent labels) (lent ranks) (lent table) (lent cycle) }
{
    let checked = plan_read::refusal::check(plan);
    let refused = call_refuse::buffers::verdict_refusal(checked, list, labels, ranks, table, cycle);
    if refused != 0 {
        return VerdictAnswer::Refused(refused);
    }
    let mut rows = [0u64; 64];
    let net = net_read::open_plan(plan, checked, list, &mut rows);
    let distances = plan_read::parts::part(plan, checked, DISTANCES);
    answer(net_verdict::assess(net, &rows, distances, labels, ranks, table, cycle))
}
