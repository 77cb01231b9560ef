// The answers of the verdict, of the list of steady tables and of a run, put into the variables that a C caller lends. Each function returns the call's refusal number,
// and if that is not 0 it has written nothing.

#![tactic(auto)]

ghost use Rattle.base.specs.Lent.{lent};
ghost use Rattle.c_rules.specs.Exports.{VerdictExport, SteadyExport, RunExport};

use checker::steady::SteadyAnswer;
use checker::verdict::VerdictAnswer;

pub fn verdict(
    plan: &[u8],
    list: usize,
    labels: &mut [u8],
    ranks: &mut [u8],
    table: &mut [u8],
    cycle: &mut [u8],
    stable: &mut u8,
    size: &mut u64,
) -> u8
    ensures { VerdictExport plan.now list result
        (lent labels) (lent ranks) (lent table) (lent cycle) (lent stable) (lent size) }
{
    let answer = checker::verdict::verdict(plan, list, labels, ranks, table, cycle);
    match answer {
        VerdictAnswer::Refused(number) => {
            return number;
        }
        VerdictAnswer::Stable(highest) => {
            *stable = 1;
            *size = highest as u64;
            return 0;
        }
        VerdictAnswer::Suspect(length) => {
            *stable = 0;
            *size = length as u64;
            return 0;
        }
    }
}

pub fn steady(plan: &[u8], list: usize, out: &mut [u8], count: &mut u64) -> u8
    ensures { SteadyExport plan.now list result (lent out) (lent count) }
{
    let answer = checker::steady::steady(plan, list, out);
    match answer {
        SteadyAnswer::Refused(number) => {
            return number;
        }
        SteadyAnswer::Listed(tables) => {
            *count = tables as u64;
            return 0;
        }
    }
}

pub fn run(
    plan: &[u8],
    list: usize,
    sequence: &[u8],
    limit: u64,
    table: &mut [u8],
    applied: &mut u64,
    rounds: &mut u64,
    exhausted: &mut u8,
) -> u8
    ensures { RunExport plan.now list sequence.now limit result
        (lent table) (lent applied) (lent rounds) (lent exhausted) }
{
    let done = checker::run::run(plan, list, sequence, limit as usize, table);
    if done.refused != 0 {
        return done.refused;
    }
    *applied = done.applied as u64;
    *rounds = done.rounds as u64;
    *exhausted = done.exhausted as u8;
    0
}
