// A run: a sequence of activations on the caller's table, at most a given limit of them.

ghost use Rattle.std.specs.Prelude.{◌≡◌, false};
ghost use Rattle.call_run.specs.Run.{Runs};

use plan_contents::entries::DISTANCES;

// Its refusal number, 0 for none; the acts applied, the whole rounds in them, and whether the sequence is longer than the limit.
#[derive(Clone, Copy)]
pub struct RunAnswer {
    pub refused: u8,
    pub applied: usize,
    pub rounds: usize,
    pub exhausted: bool,
}

// The answer of a refused run.
fn refused_run(number: u8) -> RunAnswer
    ensures { (result.refused ≡ number) × (result.applied ≡ 0) × (result.rounds ≡ 0) × (result.exhausted ≡ false) }
{
    RunAnswer {
        refused: number,
        applied: 0,
        rounds: 0,
        exhausted: false,
    }
}

// Runs a sequence of activations.
pub fn run(plan: &[u8], list: usize, sequence: &[u8], limit: usize, table: &mut [u8]) -> RunAnswer
    ensures { Runs plan.now list sequence.now limit table.old result table.new }
{
    let checked = plan_read::refusal::check(plan);
    let asked = call_refuse::numbers::sequence_refusal(checked, list, sequence);
    if asked != 0 {
        return refused_run(asked);
    }
    let mut rows = [0u64; 64];
    let net = net_read::open_plan(plan, checked, list, &mut rows);
    let refused = call_refuse::buffers::table_refusal(net, &rows, table);
    if refused != 0 {
        return refused_run(refused);
    }
    let distances = plan_read::parts::part(plan, checked, DISTANCES);
    let done = net_run::apply(net, &rows, distances, sequence, limit, table);
    RunAnswer {
        refused: 0,
        applied: done.acts,
        rounds: done.rounds,
        exhausted: done.exhausted,
    }
}
