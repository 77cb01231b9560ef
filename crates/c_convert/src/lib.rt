// The answers of the converter, put into the variable that a C caller lends. Each function returns the call's refusal number, and if that
// is not 0 it has written nothing.

#![tactic(auto)]

ghost use Rattle.std.specs.Prelude.{◌≡◌};
ghost use Rattle.base.specs.Lent.{lent};
ghost use Rattle.plan_rules.specs.Refused.{unless_refused};
ghost use Rattle.c_rules.specs.Exports.{WidenExport, NarrowExport};

use checker::convert::ConvertAnswer;

// Puts the length there, unless the conversion is refused.
fn put_length(answer: ConvertAnswer, length: &mut u64) -> u8
    ensures { (result ≡ answer.refused)
        × (length.new ≡ unless_refused answer.refused length.old answer.length) }
{
    if answer.refused != 0 {
        return answer.refused;
    }
    *length = answer.length as u64;
    0
}

pub fn widen(plan: &[u8], out: &mut [u8], length: &mut u64) -> u8
    ensures { WidenExport plan.now result (lent out) (lent length) }
{
    put_length(checker::convert::widen(plan, out), length)
}

pub fn narrow(plan: &[u8], out: &mut [u8], length: &mut u64) -> u8
    ensures { NarrowExport plan.now result (lent out) (lent length) }
{
    put_length(checker::convert::narrow(plan, out), length)
}
