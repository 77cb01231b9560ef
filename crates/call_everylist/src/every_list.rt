// Whether a plan is stable for every egress list.

ghost use Rattle.std.specs.Prelude.{◌≡◌};
ghost use Rattle.base.specs.Lent.{lent};
ghost use Rattle.call_everylist.specs.EveryList.{as_answer, EveryListCall};

use net_everylist::EveryList;
use plan_contents::entries::DISTANCES;

// Its refusal number; or yes; or no, with how many routers the list has that is given; or undecided.
#[derive(Clone, Copy)]
pub enum EveryListAnswer {
    Refused(u8),
    Yes,
    No(usize),
    Undecided,
}

fn answer(found: EveryList) -> EveryListAnswer
    ensures { result ≡ as_answer found }
{
    match found {
        EveryList::Yes => EveryListAnswer::Yes,
        EveryList::No(count) => EveryListAnswer::No(count),
        EveryList::Undecided => EveryListAnswer::Undecided,
    }
}

// Whether a plan is stable for every egress list, whatever its own lists. If not, writes a list of clients for which it is suspect.
pub fn every_list(plan: &[u8], list: &mut [u8]) -> EveryListAnswer
    ensures { EveryListCall plan.now result (lent list) }
{
    let checked = plan_read::refusal::check(plan);
    let refused = call_refuse::buffers::every_list_refusal(checked, list);
    if refused != 0 {
        return EveryListAnswer::Refused(refused);
    }
    let mut rows = [0u64; 64];
    let net = net_read::open_plan(plan, checked, 0, &mut rows);
    let distances = plan_read::parts::part(plan, checked, DISTANCES);
    answer(net_everylist::every_list(net, &rows, distances, list))
}
