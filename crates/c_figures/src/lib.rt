// The answer of the call for the figures, put into the variables that a C caller lends. It returns the call's refusal number, and if that is
// not 0 it has written nothing.

#![tactic(auto)]

ghost use Rattle.base.specs.Lent.{lent};
ghost use Rattle.c_rules.specs.Exports.{FiguresExport};

use checker::figures::FiguresAnswer;

pub fn figures(
    plan: &[u8],
    ranks: &mut [u8],
    routers: &mut [u8],
    stable: &mut u64,
    suspect: &mut u64,
    has_highest: &mut u8,
    highest: &mut u64,
) -> u8
    ensures { FiguresExport plan.now result (lent ranks) (lent routers)
        (lent stable) (lent suspect) (lent has_highest) (lent highest) }
{
    let answer = checker::figures::figures(plan, ranks, routers);
    match answer {
        FiguresAnswer::Refused(number) => {
            return number;
        }
        FiguresAnswer::Counted(report) => {
            *stable = report.stable as u64;
            *suspect = report.suspect as u64;
            *has_highest = report.highest.is_some() as u8;
            *highest = report.highest.unwrap_or(0) as u64;
            return 0;
        }
    }
}
