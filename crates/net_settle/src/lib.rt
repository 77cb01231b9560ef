// The settled table, by activating every router once, in the order of its rank.

#![tactic(auto)]

ghost use Rattle.std.specs.Prelude.{◌≡◌, List, ◌++◌, ℕ, ◌+◌, ◌*◌, ◌≤◌, ◌<◌, length, drop};
ghost use Rattle.route_theorems.specs.Settled.{settled_table};
ghost use Rattle.net_tables.specs.TableBytes.{route_of, table_bytes};
ghost use Rattle.net_rules.specs.Decoded.{decoded, instance};
ghost use Rattle.net_settle.specs.ByRank.{first_route, Started, SettleAsked, highest_in, SettledBelow};

use net_activate::activations::{activate, activate_in_one_pass, takes_step};
use net_rules::Network;
use net_tables::RouteBytes;

// What router v holds before it acts: its own route if it is listed, else nothing.
fn first_route(net: Network, v: usize) -> RouteBytes
    requires { (net.n ≤ 64) × (v < net.n) }
    ensures { (rows distances : List ℕ) → route_of result ≡ first_route (decoded net rows distances) v }
{
    if base::bits::has_bit(net.listed, v) {
        return RouteBytes::own(v);
    }
    RouteBytes::none()
}

// The table that no router has acted on.
fn start(net: Network, table: &mut [u8])
    requires { (net.n ≤ 64) × (2 * net.n ≤ length table.old) }
    ensures { (rows distances : List ℕ)
        → Started (decoded net rows distances) net.n table.old table.new }
{
    for v in 0..net.n {
        net_tables::put_route(table, v, first_route(net, v));
    }
}

// Activates every router of rank r, where those of lower ranks hold their settled entries.
fn settle_rank(
    net: Network,
    rows: &[u64; 64],
    distances: &[u8],
    ranks: &[u8],
    r: usize,
    table: &mut [u8],
)
    requires { SettleAsked net rows.now distances.now ranks.now table.old
        × SettledBelow (instance net rows distances) ranks.now r table.old table.old }
    ensures { SettledBelow (instance net rows.entry distances.entry) ranks.now (r + 1)
        table.old table.new }
{
    for w in 0..net.n {
        if base::wide(ranks[w]) == r {
            if takes_step(net, w) {
                activate(net, rows, distances, w, table);
            } else {
                activate_in_one_pass(net, rows, distances, w, table);
            }
        }
    }
}

// Writes the settled table to the first 2n bytes, where the first n bytes of `ranks` are ranks and `highest` is the highest of them.
pub fn settle(
    net: Network,
    rows: &[u64; 64],
    distances: &[u8],
    ranks: &[u8],
    highest: usize,
    table: &mut [u8],
)
    requires { SettleAsked net rows.now distances.now ranks.now table.old × (highest ≡ highest_in ranks.now net.n) }
    ensures { table.new ≡ table_bytes (settled_table (instance net rows.entry distances.entry) highest)
        ++ drop (2 * net.n) table.old }
{
    start(net, table);
    for r in 0..=highest {
        settle_rank(net, rows, distances, ranks, r, table);
    }
}
