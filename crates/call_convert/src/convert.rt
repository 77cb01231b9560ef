// The converter: `widen` makes an RRP2 plan of an RRP1 plan, `narrow` an RRP1 plan of an RRP2 plan.

ghost use Rattle.std.specs.Prelude.{◌≡◌, ◌<◌, leb, length};
ghost use Rattle.plan_rules.specs.Distances.{TwoOrFour};
ghost use Rattle.plan_rules.specs.Refusal.{refuse};
ghost use Rattle.plan_rules.specs.Converted.{converted};
ghost use Rattle.plan_read.specs.Checked.{Accepted};
ghost use Rattle.call_convert.specs.Convert.{CheckedMark, Converts, Widens, Narrows};

use plan_contents::header;
use plan_read::refusal;
use plan_read::refusal::CheckedPlan;

// Its refusal number, 0 for none, and the length of the result.
#[derive(Clone, Copy)]
pub struct ConvertAnswer {
    pub refused: u8,
    pub length: usize,
}

// The answer of a refused conversion.
fn refused_conversion(number: u8) -> ConvertAnswer
    ensures { (result.refused ≡ number) × (result.length ≡ 0) }
{
    ConvertAnswer {
        refused: number,
        length: 0,
    }
}

// Row 1 and the plan's other rows, where the plan has to have this mark.
fn check_marked(plan: &[u8], letter: u8) -> CheckedPlan
    requires { 0 < letter }
    ensures { CheckedMark letter plan.now result }
{
    if plan.len() < 4 {
        return refusal::refused(1);
    }
    if plan[header::MARK] != letter {
        return refusal::refused(1);
    }
    refusal::check(plan)
}

// Row 9, after all others, and the conversion.
fn into_buffer(plan: &[u8], checked: CheckedPlan, to: usize, out: &mut [u8]) -> ConvertAnswer
    requires { Accepted plan.now checked × TwoOrFour to }
    ensures { Converts to plan.now (refuse (leb (length (converted to plan.now)) (length out.old)) 9 0)
        out.old result out.new }
{
    let length = plan_convert::converted_length(plan, checked, to);
    if out.len() < length {
        return refused_conversion(9);
    }
    plan_convert::convert(plan, checked, to, out);
    ConvertAnswer { refused: 0, length }
}

// Writes the RRP2 plan of an RRP1 plan.
pub fn widen(plan: &[u8], out: &mut [u8]) -> ConvertAnswer
    ensures { Widens plan.now out.old result out.new }
{
    let checked = check_marked(plan, header::NARROW);
    if checked.refused != 0 {
        return refused_conversion(checked.refused);
    }
    into_buffer(plan, checked, 4, out)
}

// Writes the RRP1 plan of an RRP2 plan.
pub fn narrow(plan: &[u8], out: &mut [u8]) -> ConvertAnswer
    ensures { Narrows plan.now out.old result out.new }
{
    let checked = check_marked(plan, header::WIDE);
    if checked.refused != 0 {
        return refused_conversion(checked.refused);
    }
    if !plan_convert::distances_fit(plan, checked, 2) {
        return refused_conversion(14);
    }
    into_buffer(plan, checked, 2, out)
}
