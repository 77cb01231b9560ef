// A sequence of activations on the caller's table, at most a given limit of them.

#![tactic(auto)]

pub mod tally;

ghost use Rattle.std.specs.Prelude.{◌<◌};
ghost use Rattle.route_rules.specs.Rounds.{ActsBelow};
ghost use Rattle.net_rules.specs.Decoded.{instance};
ghost use Rattle.net_rules.specs.WellFormed.{WellFormed};
ghost use Rattle.net_tables.specs.TableBytes.{TableIn};
ghost use Rattle.net_run.specs.Applied.{RunLeaves};

use crate::tally::RoundTally;
use net_activate::activations::{activate, activate_in_one_pass, takes_step};
use net_rules::Network;

// The acts applied, the whole rounds in them, and whether acts were left when the limit was reached.
#[derive(Clone, Copy)]
pub struct Applied {
    pub acts: usize,
    pub rounds: usize,
    pub exhausted: bool,
}

// Applies a sequence, at most `limit` acts of it.
pub fn apply(
    net: Network,
    rows: &[u64; 64],
    distances: &[u8],
    sequence: &[u8],
    limit: usize,
    table: &mut [u8],
) -> Applied
    requires { WellFormed net rows.now distances.now × (0 < net.n)
        × ActsBelow net.n sequence.now × TableIn (instance net rows distances) table.old }
    ensures { RunLeaves (instance net rows.entry distances.entry) sequence.now limit
        table.old result table.new }
{
    let n = net.n;
    let acts = limit.min(sequence.len());
    let mut tally = RoundTally::new(n);
    for act in &sequence[..acts] {
        let router = base::wide(*act);
        if takes_step(net, router) {
            activate(net, rows, distances, router, table);
        } else {
            activate_in_one_pass(net, rows, distances, router, table);
        }
        tally = tally.act(n, router);
    }
    Applied {
        acts,
        rounds: tally.ended,
        exhausted: limit < sequence.len(),
    }
}
