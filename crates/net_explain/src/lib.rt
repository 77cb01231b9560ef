// The rule by which one router relies on another, or the first reason why it does not, over a network read from a plan.

#![tactic(auto)]

ghost use Rattle.std.specs.Prelude.{◌≡◌, ◌<◌};
ghost use Rattle.net_rules.specs.Decoded.{instance};
ghost use Rattle.net_rules.specs.WellFormed.{WellFormed};
ghost use Rattle.route_explain_rules.specs.Explained.{on_reflector, on_client, explained};

use net_rules::Network;
use route_explain_rules::explanation::{Explanation, Reason, Rule};

// Of unlisted w and its neighbour v, a reflector.
fn on_reflector(net: Network, rows: &[u64; 64], distances: &[u8], w: usize, v: usize) -> Explanation
    requires { WellFormed net rows.now distances.now × (w < net.n) × (v < net.n) }
    ensures { result ≡ on_reflector (instance net rows.entry distances.entry) w v }
{
    if !base::bits::has_bit(net.reflectors, w) {
        return Explanation::Yes(Rule::Parent);
    }
    let own = net_offers::best_client(net, rows, distances, w);
    let other = net_offers::best_client(net, rows, distances, v);
    let offer = net_offers::offered(net, v, other);
    net_offers::by_offer(net, distances, w, v, offer, own)
}

// .. a client.
fn on_client(net: Network, rows: &[u64; 64], distances: &[u8], w: usize, v: usize) -> Explanation
    requires { WellFormed net rows.now distances.now × (w < net.n) × (v < net.n) }
    ensures { result ≡ on_client (instance net rows.entry distances.entry) w v }
{
    if !base::bits::has_bit(net.listed, v) {
        return Explanation::No(Reason::SecondUnlistedClient);
    }
    if !base::bits::has_bit(net.reflectors, w) {
        return Explanation::Yes(Rule::PeerClient);
    }
    let own = net_offers::best_client(net, rows, distances, w);
    if base::wide(own) == v {
        return Explanation::Yes(Rule::OwnBestClient);
    }
    Explanation::No(Reason::NotTheBestClient)
}

// By which rule w relies on v, or the first reason why it does not.
pub fn explained(
    net: Network,
    rows: &[u64; 64],
    distances: &[u8],
    w: usize,
    v: usize,
) -> Explanation
    requires { WellFormed net rows.now distances.now × (w < net.n) × (v < net.n) }
    ensures { result ≡ explained (instance net rows.entry distances.entry) w v }
{
    if w == v {
        return Explanation::No(Reason::SameRouter);
    }
    let near = base::bits::has_bit(rows[w], v);
    let listed = base::bits::has_bit(net.listed, w);
    if !near {
        return Explanation::No(Reason::NotNeighbours);
    }
    if listed {
        return Explanation::No(Reason::FirstListed);
    }
    if base::bits::has_bit(net.reflectors, v) {
        return on_reflector(net, rows, distances, w, v);
    }
    on_client(net, rows, distances, w, v)
}
