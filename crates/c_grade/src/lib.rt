// The answer of the call for the grade, put into the variables that a C caller lends. It returns the call's refusal number, and if that is
// not 0 it has written nothing.

#![tactic(auto)]

ghost use Rattle.base.specs.Lent.{lent};
ghost use Rattle.c_rules.specs.Exports.{GradeExport};

use checker::grade::GradeAnswer;

pub fn grade(plan: &[u8], list: usize, number: &mut u8, rounds: &mut u64) -> u8
    ensures { GradeExport plan.now list result (lent number) (lent rounds) }
{
    let answer = checker::grade::grade(plan, list);
    match answer {
        GradeAnswer::Refused(refused) => {
            return refused;
        }
        GradeAnswer::Graded(found, within) => {
            *number = found as u8;
            *rounds = within as u64;
            return 0;
        }
    }
}
