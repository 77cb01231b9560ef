// Best clients, what routers offer and rule 3 on an offer, over a network read from a plan. A router is a byte here, NO_ROUTER for none.

#![tactic(auto)]

ghost use Rattle.std.specs.Prelude.{◌≡◌, true, not, ◌&&◌, List, ℕ, ◌≤◌, ◌<◌};
ghost use Rattle.base.specs.Best.{keep_best};
ghost use Rattle.plan_rules.specs.Distances.{DistanceTable};
ghost use Rattle.route_rules.specs.Instance.{Instance, RouterBelow};
ghost use Rattle.route_rules.specs.Preference.{nearer, has_step, prefers};
ghost use Rattle.route_rules.specs.Reliance.{best_client, offer};
ghost use Rattle.route_explain_rules.specs.Explained.{WayTo, against_own, by_offer};
ghost use Rattle.route_explain_rules.specs.Reasons.{is_yes};
ghost use Rattle.net_offers.specs.OwnClient.{ListedClients, OwnClient, OwnClients};
ghost use Rattle.net_rules.specs.Decoded.{decoded, instance};
ghost use Rattle.net_rules.specs.RouterBytes.{as_router};
ghost use Rattle.net_prefer.specs.Measured.{Measured};
ghost use Rattle.net_rules.specs.WellFormed.{WellFormed};

use net_rules::{NO_ROUTER, Network};
use route_explain_rules::explanation::{Explanation, Reason, Rule};

// The listed clients that v neighbours, as bits; v may have no way to one.
fn listed_clients(net: Network, rows: &[u64; 64], v: usize) -> u64
    requires { v < 64 }
    ensures { (distances : List ℕ) → ListedClients (decoded net rows.now distances) v result }
{
    base::bits::without(rows[v] & net.listed, net.reflectors)
}

// Of the best client so far and e, another, to which there may be no way.
fn keep_client(distances: &[u8], width: usize, n: usize, v: usize, e: usize, best: u8) -> u8
    requires { (v < n) × (e < n) × (n ≤ 64) × DistanceTable width distances.now n × RouterBelow n (as_router best) }
    ensures { (I : Instance) → Measured I width distances.now n
        → as_router result ≡ keep_best (nearer I v) (I.way v e) e (as_router best) }
{
    if !plan_distances::has_way(distances, width, n, v, e) {
        return best;
    }
    if best == NO_ROUTER {
        return e as u8;
    }
    if net_prefer::nearer_at(distances, width, n, v, e, base::wide(best)) {
        return e as u8;
    }
    best
}

pub fn best_client(net: Network, rows: &[u64; 64], distances: &[u8], v: usize) -> u8
    requires { WellFormed net rows.now distances.now × (v < net.n) }
    ensures { as_router result ≡ best_client (instance net rows.entry distances.entry) v }
{
    let mut best = NO_ROUTER;
    let mut left = listed_clients(net, rows, v);
    while left != 0 {
        let e = base::bits::lowest_bit(left);
        best = keep_client(distances, net.width, net.n, v, e, best);
        left = base::bits::without_lowest(left);
    }
    best
}

// A reflector's best client; a client needs none.
pub fn own_client(net: Network, rows: &[u64; 64], distances: &[u8], v: usize) -> u8
    requires { WellFormed net rows.now distances.now × (v < net.n) }
    ensures { OwnClient (instance net rows.entry distances.entry) v result }
{
    if !base::bits::has_bit(net.reflectors, v) {
        return NO_ROUTER;
    }
    best_client(net, rows, distances, v)
}

// The best client of every reflector.
pub fn best_clients(net: Network, rows: &[u64; 64], distances: &[u8]) -> [u8; 64]
    requires { WellFormed net rows.now distances.now }
    ensures { OwnClients (instance net rows.entry distances.entry) result }
{
    let mut best = [NO_ROUTER; 64];
    for v in 0..net.n {
        best[v] = own_client(net, rows, distances, v);
    }
    best
}

// What v offers, where `own` is its best client.
pub fn offered(net: Network, v: usize, own: u8) -> u8
    requires { (net.n ≤ 64) × (v < net.n) }
    ensures { (rows distances : List ℕ)
        → as_router own ≡ best_client (decoded net rows distances) v → as_router result ≡ offer (decoded net rows distances) v }
{
    let itself = v as u8;
    if base::bits::has_bit(net.listed, v) {
        return itself;
    }
    own
}

// Whether the hop step puts the offer of v behind an own best client of w: w has the step, and v, which is not listed, passes the offer
// on, while a best client is told by its own egress router.
fn behind(net: Network, w: usize, v: usize) -> bool
    requires { (w < 64) × (v < 64) }
    ensures { (rows distances : List ℕ)
        → result ≡ (has_step (decoded net rows distances) w && not ((decoded net rows distances).listed v)) }
{
    base::bits::has_bit(net.reflectors & net.hop, w) && !base::bits::has_bit(net.listed, v)
}

// Whether w prefers the offer of v to its own best client, where `near` says that it is nearer. It is one answer for both tests, as that
// compiles to code without a branch between them.
fn preferred(net: Network, w: usize, v: usize, near: bool) -> bool
    requires { (w < 64) × (v < 64) }
    ensures { (rows distances : List ℕ) (e c : ℕ) → let I = decoded net rows distances in near ≡ nearer I w e c
        → result ≡ prefers I w e (I.listed v) c true }
{
    if behind(net, w, v) {
        return false;
    }
    near
}

// Rule 3 where w has a way to the offer of its neighbour v, and `own` is its own best client: the numbers of ways are their distances.
fn against_own(
    net: Network,
    distances: &[u8],
    w: usize,
    v: usize,
    offer: usize,
    own: u8,
) -> Explanation
    requires { (net.n ≤ 64) × (w < net.n) × (v < net.n) × DistanceTable net.width distances.now net.n
        × (offer < net.n) × RouterBelow net.n (as_router own) }
    ensures { (rows : List ℕ) → let I = decoded net rows distances.now in I.way w offer ≡ true
        → WayTo I w (as_router own) → result ≡ against_own I w (I.listed v) offer (as_router own) }
{
    if own == NO_ROUTER {
        return Explanation::Yes(Rule::AnyOffer(offer));
    }
    let client = base::wide(own);
    let to_offer = plan_distances::number(distances, net.width, net.n, w, offer);
    let to_client = plan_distances::number(distances, net.width, net.n, w, client);
    let near = net_prefer::nearer(to_offer, to_client, offer, client);
    if !preferred(net, w, v, near) {
        return Explanation::No(Reason::OfferNotBetter);
    }
    Explanation::Yes(Rule::BetterOffer(offer, client, net_prefer::difference(to_offer, to_client)))
}

// Rule 3 on the offer of v, a neighbouring reflector, where `own` is the own best client of w.
pub fn by_offer(
    net: Network,
    distances: &[u8],
    w: usize,
    v: usize,
    offer: u8,
    own: u8,
) -> Explanation
    requires { (net.n ≤ 64) × (w < net.n) × (v < net.n) × DistanceTable net.width distances.now net.n
        × RouterBelow net.n (as_router offer) × RouterBelow net.n (as_router own) }
    ensures { (rows : List ℕ) → let I = decoded net rows distances.now in WayTo I w (as_router own)
        → result ≡ by_offer I w (I.listed v) (as_router offer) (as_router own) }
{
    if offer == NO_ROUTER {
        return Explanation::No(Reason::NoOffer);
    }
    let egress = base::wide(offer);
    if !plan_distances::has_way(distances, net.width, net.n, w, egress) {
        return Explanation::No(Reason::NoWayToTheOffer);
    }
    against_own(net, distances, w, v, egress, own)
}

// Whether an answer is yes.
pub fn says_yes(answer: Explanation) -> bool
    ensures { result ≡ is_yes answer }
{
    matches!(answer, Explanation::Yes(_))
}
