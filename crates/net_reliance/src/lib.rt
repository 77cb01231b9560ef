// Who relies on whom, over a network read from a plan. A router is a byte here, NO_ROUTER for none.

#![tactic(auto)]

ghost use Rattle.std.specs.Prelude.{◌≡◌, ◌≤◌, ◌<◌, length, get_or};
ghost use Rattle.route_rules.specs.Reliance.{relies};
ghost use Rattle.net_offers.specs.OwnClient.{OwnClient, OwnClients};
ghost use Rattle.net_reliance.specs.RelianceRows.{UnlistedReflector, Candidates, RelianceRow, RelianceRows};
ghost use Rattle.net_rules.specs.Decoded.{instance};
ghost use Rattle.route_rules.specs.Instance.{RouterBelow};
ghost use Rattle.net_rules.specs.RouterBytes.{as_router};
ghost use Rattle.net_rules.specs.WellFormed.{WellFormed};

use net_rules::{NO_ROUTER, Network};

// Rule 3, where `own` and `other` are the best clients of w and, if it is a reflector, of v.
fn reflector_relies(
    net: Network,
    rows: &[u64; 64],
    distances: &[u8],
    w: usize,
    v: usize,
    own: u8,
    other: u8,
) -> bool
    requires { WellFormed net rows.now distances.now × (w < net.n) × (v < net.n)
        × UnlistedReflector (instance net rows distances) w own × OwnClient (instance net rows distances) v other }
    ensures { result ≡ relies (instance net rows.entry distances.entry) w v }
{
    if !base::bits::has_bit(net.reflectors, v) {
        return base::wide(own) == v;
    }
    if !base::bits::has_bit(rows[w], v) {
        return false;
    }
    let offer = net_offers::offered(net, v, other);
    net_offers::says_yes(net_offers::by_offer(net, distances, w, v, offer, own))
}

// Whether w relies on v, where `own` and `other` are the best clients of those that are reflectors.
fn relies_by(
    net: Network,
    rows: &[u64; 64],
    distances: &[u8],
    w: usize,
    v: usize,
    own: u8,
    other: u8,
) -> bool
    requires { WellFormed net rows.now distances.now × (w < net.n) × (v < net.n)
        × OwnClient (instance net rows distances) w own × OwnClient (instance net rows distances) v other }
    ensures { result ≡ relies (instance net rows.entry distances.entry) w v }
{
    if base::bits::has_bit(net.listed, w) {
        return false;
    }
    if base::bits::has_bit(net.reflectors, w) {
        return reflector_relies(net, rows, distances, w, v, own, other);
    }
    if !base::bits::has_bit(rows[w], v) {
        return false;
    }
    if base::bits::has_bit(net.reflectors, v) {
        return true;
    }
    base::bits::has_bit(net.listed, v)
}

// Whether w relies on v.
pub fn relies(net: Network, rows: &[u64; 64], distances: &[u8], w: usize, v: usize) -> bool
    requires { WellFormed net rows.now distances.now × (w < net.n) × (v < net.n) }
    ensures { result ≡ relies (instance net rows.entry distances.entry) w v }
{
    let own = net_offers::own_client(net, rows, distances, w);
    let other = net_offers::own_client(net, rows, distances, v);
    relies_by(net, rows, distances, w, v, own, other)
}

// The routers that rule 3 asks about: the neighbouring reflectors, and the best client if there is one.
fn candidates(net: Network, rows: &[u64; 64], w: usize, own: u8) -> u64
    requires { (net.n ≤ 64) × (w < net.n) × RouterBelow net.n (as_router own) }
    ensures { Candidates net.reflectors (get_or rows.now w 0) (as_router own) result }
{
    let reflectors = rows[w] & net.reflectors;
    if own == NO_ROUTER {
        return reflectors;
    }
    base::bits::with_bit(reflectors, base::wide(own))
}

// The routers that an unlisted reflector w relies on, where `best` has every reflector's best client.
fn reflector_row(net: Network, rows: &[u64; 64], distances: &[u8], best: &[u8; 64], w: usize) -> u64
    requires { WellFormed net rows.now distances.now × (w < net.n) × OwnClients (instance net rows distances) best.now
        × UnlistedReflector (instance net rows distances) w (get_or best.now w 0) }
    ensures { RelianceRow (instance net rows.entry distances.entry) w net.n result }
{
    let own = best[w];
    let mut row: u64 = 0;
    let mut left = candidates(net, rows, w, own);
    while left != 0 {
        let v = base::bits::lowest_bit(left);
        row = base::bits::with_bit_if(
            row,
            v,
            reflector_relies(net, rows, distances, w, v, own, best[v]),
        );
        left = base::bits::without_lowest(left);
    }
    row
}

// The routers that w relies on, where `best` has every reflector's best client.
fn reliance_row(net: Network, rows: &[u64; 64], distances: &[u8], best: &[u8; 64], w: usize) -> u64
    requires { WellFormed net rows.now distances.now × (w < net.n) × OwnClients (instance net rows distances) best.now }
    ensures { RelianceRow (instance net rows.entry distances.entry) w net.n result }
{
    if base::bits::has_bit(net.listed, w) {
        return 0;
    }
    if base::bits::has_bit(net.reflectors, w) {
        return reflector_row(net, rows, distances, best, w);
    }
    rows[w] & (net.reflectors | net.listed)
}

// The routers that each router relies on.
pub fn reliance_rows(net: Network, rows: &[u64; 64], distances: &[u8], out: &mut [u64; 64])
    requires { WellFormed net rows.now distances.now × (length out.old ≡ 64) }
    ensures { RelianceRows (instance net rows.entry distances.entry) out.old out.new }
{
    let best = net_offers::best_clients(net, rows, distances);
    for w in 0..net.n {
        out[w] = reliance_row(net, rows, distances, &best, w);
    }
}
