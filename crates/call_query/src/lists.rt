// An egress list handed back as a part of the plan itself.

ghost use Rattle.std.specs.Prelude.{◌≡◌};
ghost use Rattle.call_rules.specs.Refusals.{egress_list_refusal};
ghost use Rattle.call_query.specs.EgressList.{ListPartOf};

// The number that `egress_list` is refused with; 0 for none.
pub fn egress_list_refusal(plan: &[u8], list: usize) -> u8
    ensures { result ≡ egress_list_refusal plan.now list }
{
    call_refuse::numbers::list_refusal(plan_read::refusal::check(plan), list)
}

// The numbers of a list as that part of the plan itself; empty if refused.
pub fn egress_list(plan: &[u8], list: usize) -> &[u8]
    ensures { ListPartOf plan.entry list result }
{
    let checked = plan_read::refusal::check(plan);
    if call_refuse::numbers::list_refusal(checked, list) != 0 {
        return &plan[0..0];
    }
    plan_read::lists::list_numbers(plan, checked, list)
}
