// The verdict over a network read from a plan: groups, and ranks with the settled table or a cycle.

#![tactic(auto)]

ghost use Rattle.std.specs.Prelude.{◌*◌, ◌≤◌, length};
ghost use Rattle.base.specs.Lent.{lent};
ghost use Rattle.net_rules.specs.Decoded.{instance};
ghost use Rattle.net_rules.specs.WellFormed.{WellFormed};
ghost use Rattle.net_verdict.specs.Assessed.{Assessed};

use net_rules::Network;

// Stable, with the highest rank; or suspect, with the cycle's length.
#[derive(Clone, Copy)]
pub enum Assessment {
    Stable(usize),
    Suspect(usize),
}

// Writes the labels; if the network is stable, its ranks and its settled table, and else its cycle.
pub fn assess(
    net: Network,
    rows: &[u64; 64],
    distances: &[u8],
    labels: &mut [u8],
    ranks: &mut [u8],
    table: &mut [u8],
    cycle: &mut [u8],
) -> Assessment
    requires { WellFormed net rows.now distances.now × (net.n ≤ length labels.old)
        × (net.n ≤ length ranks.old) × (2 * net.n ≤ length table.old) × (net.n ≤ length cycle.old) }
    ensures verdict { Assessed (instance net rows.entry distances.entry) result
        (lent labels) (lent ranks) (lent table) (lent cycle) }
{
    let n = net.n;
    let mut relied = [0u64; 64];
    net_reliance::reliance_rows(net, rows, distances, &mut relied);
    let mut closed = relied;
    graph_groups::closing::close(&mut closed, n);
    graph_groups::groups::labels(&closed, n, labels);
    if graph_groups::groups::is_stable(&closed, n) {
        let highest = graph_ranks::ranks(&relied, n, ranks);
        net_settle::settle(net, rows, distances, ranks, highest, table);
        return Assessment::Stable(highest);
    }
    Assessment::Suspect(graph_cycle::cycle(&relied, &closed, n, cycle))
}
