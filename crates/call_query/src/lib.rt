// The calls that answer a question on a plan and write nothing. None has a `requires`: any bytes and numbers get a result or a
// refusal number.

#![tactic(auto)]

pub mod lists;
pub mod relies;
pub mod size;

ghost use Rattle.std.specs.Prelude.{◌≡◌};
ghost use Rattle.plan_rules.specs.Refusal.{plan_refusal};

// The number that a plan is refused with; 0 for none.
pub fn check(plan: &[u8]) -> u8
    ensures { result ≡ plan_refusal plan.now }
{
    plan_read::refusal::refusal(plan)
}
