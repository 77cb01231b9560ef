// The refusals of a call by its list and routers: row 8, after the rows of the plan. `checked` is what the check of the plan
// handed on, whatever plan that is.

ghost use Rattle.std.specs.Prelude.{◌≡◌, Bool, ◌&&◌, List, ℕ};
ghost use Rattle.plan_read.specs.Checked.{Checked};
ghost use Rattle.call_rules.specs.Refusals.{has_router, sequence_ok, asked_checks, router_refusal, sequence_refusal};
ghost use Rattle.call_rules.specs.Refusals.{egress_list_refusal, compare_refusal, relies_refusal};

use plan_read::refusal::CheckedPlan;

// Rows up to 8 of a call that asks for a list.
pub fn list_refusal(checked: CheckedPlan, list: usize) -> u8
    ensures { (plan : List ℕ) → Checked plan checked → result ≡ egress_list_refusal plan list }
{
    if checked.refused != 0 {
        return checked.refused;
    }
    if checked.m as usize <= list {
        return 8;
    }
    0
}

// One router more that is asked for, whatever the conditions before it; `refused` is what they gave.
fn and_router(checked: CheckedPlan, refused: u8, router: usize) -> u8
    ensures { (plan : List ℕ) (ok : Bool) → Checked plan checked → refused ≡ asked_checks plan ok 0
        → result ≡ asked_checks plan (ok && has_router plan router) 0 }
{
    if refused != 0 {
        return refused;
    }
    if checked.n as usize <= router {
        return 8;
    }
    0
}

// Rows up to 8 of a comparison.
pub fn compare_refusal(checked: CheckedPlan, router: usize, first: usize, second: usize) -> u8
    ensures { (plan : List ℕ) → Checked plan checked → result ≡ compare_refusal plan router first second }
{
    let at = and_router(checked, checked.refused, router);
    let with_first = and_router(checked, at, first);
    and_router(checked, with_first, second)
}

// Rows up to 8 of a call that asks for a list and a router.
pub fn router_refusal(checked: CheckedPlan, list: usize, router: usize) -> u8
    ensures { (plan : List ℕ) → Checked plan checked → result ≡ router_refusal plan list router }
{
    and_router(checked, list_refusal(checked, list), router)
}

// Rows up to 8 of a question on reliance.
pub fn relies_refusal(checked: CheckedPlan, list: usize, router: usize, other: usize) -> u8
    ensures { (plan : List ℕ) → Checked plan checked → result ≡ relies_refusal plan list router other }
{
    and_router(checked, router_refusal(checked, list, router), other)
}

fn sequence_ok(sequence: &[u8], n: usize) -> bool
    ensures { result ≡ sequence_ok sequence.now n }
{
    for named in sequence {
        if n <= *named as usize {
            return false;
        }
    }
    true
}

// Rows up to 8 of a run.
pub fn sequence_refusal(checked: CheckedPlan, list: usize, sequence: &[u8]) -> u8
    ensures { (plan : List ℕ) → Checked plan checked → result ≡ sequence_refusal plan list sequence.now }
{
    let refused = list_refusal(checked, list);
    if refused != 0 {
        return refused;
    }
    if !sequence_ok(sequence, checked.n as usize) {
        return 8;
    }
    0
}
