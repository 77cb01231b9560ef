// The answer of the call on every list, put into the variables that a C caller lends. It returns the call's refusal number, and if that is
// not 0 it has written nothing.

#![tactic(auto)]

ghost use Rattle.base.specs.Lent.{lent};
ghost use Rattle.c_rules.specs.Exports.{EveryListExport};

use checker::every_list::EveryListAnswer;

pub fn every_list(plan: &[u8], answer: &mut u8, list: &mut [u8], count: &mut u64) -> u8
    ensures { EveryListExport plan.now result (lent answer) (lent list) (lent count) }
{
    let given = checker::every_list::every_list(plan, list);
    match given {
        EveryListAnswer::Refused(number) => {
            return number;
        }
        EveryListAnswer::Yes => {
            *answer = 1;
            *count = 0;
            return 0;
        }
        EveryListAnswer::No(routers) => {
            *answer = 0;
            *count = routers as u64;
            return 0;
        }
        EveryListAnswer::Undecided => {
            *answer = 2;
            *count = 0;
            return 0;
        }
    }
}
