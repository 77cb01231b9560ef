// Where the numbers of an egress list stand in a plan that is not refused.

ghost use Rattle.std.specs.Prelude.{◌≡◌, ℕ, ◌≤◌, ◌<◌, length};
ghost use Rattle.base.specs.Bytes.{PartOf};
ghost use Rattle.plan_rules.specs.Lists.{list_place};
ghost use Rattle.plan_rules.specs.EgressLists.{list_count, list_start, list_size, SpanOf};
ghost use Rattle.plan_read.specs.Checked.{Accepted};

use crate::refusal::CheckedPlan;
use plan_contents::entries::LISTS;

// Where the count byte of a list stands in the body.
fn list_place(s: &[u8], list: usize) -> usize
    requires { (k : ℕ) → k ≤ list → list_place s.now k < length s.now }
    ensures { result ≡ list_place s.now list }
{
    let mut place = 1;
    for _ in 0..list {
        place = place + 1 + base::wide(s[place]);
    }
    place
}

// Where the numbers of a list stand in the plan, and how many they are.
#[derive(Clone, Copy)]
pub struct Span {
    pub start: usize,
    pub count: usize,
}

pub fn list_span(plan: &[u8], checked: CheckedPlan, list: usize) -> Span
    requires { Accepted plan.now checked × (list < list_count plan.now) }
    ensures { SpanOf plan.now list result.start result.count }
{
    let s = crate::parts::part(plan, checked, LISTS);
    let place = list_place(s, list);
    let table = checked.table;
    let e = table[LISTS];
    Span {
        start: e.offset as usize + place + 1,
        count: base::wide(s[place]),
    }
}

// The numbers of a list, as a part of the plan itself.
pub fn list_numbers(plan: &[u8], checked: CheckedPlan, list: usize) -> &[u8]
    requires { Accepted plan.now checked × (list < list_count plan.now) }
    ensures { PartOf plan.entry (list_start plan.now list) (list_size plan.now list) result }
{
    let span = list_span(plan, checked, list);
    let start = span.start;
    let stop = start + span.count;
    &plan[start..stop]
}
