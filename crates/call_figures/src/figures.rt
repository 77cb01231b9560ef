// The figures over all lists of a plan.

ghost use Rattle.std.specs.Prelude.{◌≡◌, ◌++◌, ◌≤◌, length, drop};
ghost use Rattle.base.specs.Lent.{lent};
ghost use Rattle.base.specs.Tab.{tab};
ghost use Rattle.plan_read.specs.Checked.{Accepted};
ghost use Rattle.call_figures.specs.AllLists.{Cleared, ListsCounted};
ghost use Rattle.call_figures.specs.Figures.{FiguresCall};

use figures_rules::report::Figures;
use plan_contents::entries::DISTANCES;
use plan_read::refusal::CheckedPlan;

// Its refusal number; or what was counted.
#[derive(Clone, Copy)]
pub enum FiguresAnswer {
    Refused(u8),
    Counted(Figures),
}

// Sets the first n counts to 0.
fn clear(counts: &mut [u8], n: usize)
    requires { n ≤ length counts.old }
    ensures { counts.new ≡ tab (λ i. 0) n ++ drop n counts.old }
{
    counts[..n].fill(0);
}

// Counts every list of a plan that is not refused: what all have in common is read once. The counts are lent as zeros.
fn count_lists(plan: &[u8], checked: CheckedPlan, ranks: &mut [u8], routers: &mut [u8]) -> Figures
    requires { Accepted plan.now checked × Cleared plan.now ranks.old × Cleared plan.now routers.old }
    ensures { ListsCounted plan.now result (lent ranks) (lent routers) }
{
    let mut rows = [0u64; 64];
    let first = net_read::open_plan(plan, checked, 0, &mut rows);
    let distances = plan_read::parts::part(plan, checked, DISTANCES);
    let mut known = Figures {
        stable: 0,
        suspect: 0,
        highest: None,
    };
    for list in 0..checked.m as usize {
        let net = net_read::with_list(plan, checked, first, list);
        known = net_figures::count_list(net, &rows, distances, known, ranks, routers);
    }
    known
}

// The figures over all lists of a plan. Writes how many stable lists had each rank as their highest, and in how many lists each router
// was in a group of two or more.
pub fn figures(plan: &[u8], ranks: &mut [u8], routers: &mut [u8]) -> FiguresAnswer
    ensures { FiguresCall plan.now result (lent ranks) (lent routers) }
{
    let checked = plan_read::refusal::check(plan);
    let refused = call_refuse::buffers::figures_refusal(checked, ranks, routers);
    if refused != 0 {
        return FiguresAnswer::Refused(refused);
    }
    let n = checked.n as usize;
    clear(ranks, n);
    clear(routers, n);
    FiguresAnswer::Counted(count_lists(plan, checked, ranks, routers))
}
