// The answers of the calls that write nothing, put into the variables that a C caller lends. Each function returns the call's refusal
// number, and if that is not 0 it has written nothing.

#![tactic(auto)]

ghost use Rattle.base.specs.Lent.{lent};
ghost use Rattle.c_rules.specs.Exports.{SizeExport, ListExport, CompareExport, ReliesExport, HopSetExport};

use checker::compare::CompareAnswer;
use checker::hop_set::HopSetAnswer;
use checker::relies::ReliesAnswer;

pub fn size(plan: &[u8], routers: &mut u64, lists: &mut u64) -> u8
    ensures { SizeExport plan.now result (lent routers) (lent lists) }
{
    let answer = checker::size::size(plan);
    if answer.refused != 0 {
        return answer.refused;
    }
    *routers = answer.routers as u64;
    *lists = answer.lists as u64;
    0
}

pub fn list(plan: &[u8], list: usize, start: &mut u64, count: &mut u64) -> u8
    ensures { ListExport plan.now list result (lent start) (lent count) }
{
    let checked = plan_read::refusal::check(plan);
    let refused = call_refuse::numbers::list_refusal(checked, list);
    if refused != 0 {
        return refused;
    }
    let span = plan_read::lists::list_span(plan, checked, list);
    *start = span.start as u64;
    *count = span.count as u64;
    0
}

pub fn compare(
    plan: &[u8],
    router: usize,
    first: usize,
    second: usize,
    first_direct: u8,
    second_direct: u8,
    better: &mut u8,
    has_margin: &mut u8,
    margin: &mut i64,
) -> u8
    ensures { CompareExport plan.now router first first_direct second second_direct result
        (lent better) (lent has_margin) (lent margin) }
{
    let first_told = first_direct != 0;
    let second_told = second_direct != 0;
    let answer = checker::compare::compare(plan, router, first, second, first_told, second_told);
    match answer {
        CompareAnswer::Refused(number) => {
            return number;
        }
        CompareAnswer::Compared(preferred, difference) => {
            *better = preferred as u8;
            *has_margin = difference.is_some() as u8;
            *margin = difference.unwrap_or(0);
            return 0;
        }
    }
}

pub fn relies(plan: &[u8], list: usize, router: usize, other: usize, relies: &mut u8) -> u8
    ensures { ReliesExport plan.now list router other result (lent relies) }
{
    let answer = checker::relies::relies(plan, list, router, other);
    match answer {
        ReliesAnswer::Refused(number) => {
            return number;
        }
        ReliesAnswer::Yes => {
            *relies = 1;
            return 0;
        }
        ReliesAnswer::No => {
            *relies = 0;
            return 0;
        }
    }
}

pub fn hop_set(plan: &[u8], list: usize, set: &mut u64) -> u8
    ensures { HopSetExport plan.now list result (lent set) }
{
    let answer = checker::hop_set::hop_set(plan, list);
    match answer {
        HopSetAnswer::Refused(number) => {
            return number;
        }
        HopSetAnswer::Named(named) => {
            *set = named;
            return 0;
        }
    }
}
