// An activation on the caller's table: one pass over the neighbours of the router that may advertise a route. Each route has a key, a
// number that orders routes by distance, then by egress, then by sender; the best has the least. A router with the hop step
// first makes a pass over those that tell their own route.

ghost use Rattle.std.specs.Prelude.{◌≡◌, false, cond, List, ℕ, ◌+◌, ◌*◌, ◌≤◌, ◌<◌, max, length};
ghost use Rattle.std.proofs.Math.Option.{none, some};
ghost use Rattle.base.specs.Bits.{bit_n};
ghost use Rattle.plan_rules.specs.Distances.{highest, number_at, TwoOrFour, DistanceTable};
ghost use Rattle.route_rules.specs.Instance.{via};
ghost use Rattle.route_rules.specs.Preference.{has_step};
ghost use Rattle.route_rules.specs.Activation.{reflects, advertises};
ghost use Rattle.net_rules.specs.Decoded.{decoded, instance};
ghost use Rattle.net_tables.specs.TableBytes.{RouteBelow, RoutesIn, TableIn, route_at, route_of, put_route, activate_bytes};
ghost use Rattle.net_activate.specs.OnePass.{sender_mark, route_key, Numbers, numbers_of, no_key, told_key, least_key, own_route, own_routes, chosen_key, key_route};
ghost use Rattle.net_rules.specs.WellFormed.{WellFormed};

use net_rules::{NO_ROUTER, Network};
use net_tables::RouteBytes;

// A key holds the sender's mark in its lowest byte, then the egress in a byte, then the distance.
const EGRESS_PLACE: usize = 256;

const DISTANCE_PLACE: usize = 65536;

// A route without a way has a key that is not lower than this one, and with a way it is lower: the highest number of a distance's bytes is
// no way.
fn no_key(width: usize) -> usize
    requires { TwoOrFour width }
    ensures { result ≡ highest width * 65536 }
{
    plan_distances::highest(width) * DISTANCE_PLACE
}

// Of several senders of one egress, that egress itself has the least mark, then the lowest.
fn sender_mark(egress: usize, sender: usize) -> usize
    requires { sender < 64 }
    ensures { result ≡ sender_mark egress sender }
{
    if egress == sender {
        return 0;
    }
    sender + 1
}

// At w, the key of the route to an egress from a sender.
fn route_key(
    distances: &[u8],
    width: usize,
    n: usize,
    w: usize,
    egress: usize,
    sender: usize,
) -> usize
    requires { (w < n) × (egress < n) × (sender < n) × (n ≤ 64) × DistanceTable width distances.now n }
    ensures { result ≡ route_key (number_at width distances.now (w * n + egress)) egress sender }
{
    let number = plan_distances::number(distances, width, n, w, egress);
    number * DISTANCE_PLACE + egress * EGRESS_PLACE + sender_mark(egress, sender)
}

// The route of a key, where `none` is that of nothing.
fn key_route(key: usize, none: usize) -> RouteBytes
    ensures { (N : Numbers) → none ≡ no_key N → route_of result ≡ key_route N key }
{
    if none <= key {
        return RouteBytes::none();
    }
    let egress = (key / EGRESS_PLACE % 256) as u8;
    let mark = key % EGRESS_PLACE;
    if mark == 0 {
        return RouteBytes {
            egress: egress,
            sender: egress,
        };
    }
    RouteBytes {
        egress: egress,
        sender: (mark - 1) as u8,
    }
}

// Whether an unlisted reflector v passes on to w what it holds from this sender.
fn passes_on(net: Network, v: usize, sender: usize, w: usize) -> bool
    requires { (v < 64) × (sender < 64) × (w < 64) }
    ensures { (rows distances : List ℕ) (e : ℕ)
        → reflects (decoded net rows distances) v (via e sender) w ≡ cond result (some e) none }
{
    if base::bits::has_bit(net.reflectors, sender) {
        return !base::bits::has_bit(net.reflectors, w);
    }
    if base::bits::has_bit(net.skips, v) {
        return base::bits::has_bit(net.reflectors, w);
    }
    sender != w
}

// The key of what an unlisted reflector v, holding a route, passes on to w; `none` is nothing. The distance is read before it is known
// whether the route is passed on: that compiles to code without a branch.
fn reflected(
    net: Network,
    distances: &[u8],
    w: usize,
    v: usize,
    route: RouteBytes,
    none: usize,
) -> usize
    requires { (net.n ≤ 64) × (w < net.n) × (v < net.n) × DistanceTable net.width distances.now net.n
        × RouteBelow net.n (route_of route) × (none ≡ no_key (numbers_of net distances.now w)) }
    ensures { (rows : List ℕ) → result ≡ told_key (numbers_of net distances.now w) v
        (reflects (decoded net rows distances.now) v (route_of route) w) }
{
    if route.egress == NO_ROUTER {
        return none;
    }
    let key = route_key(distances, net.width, net.n, w, base::wide(route.egress), v);
    if passes_on(net, v, base::wide(route.sender), w) {
        return key;
    }
    none
}

// The key of what router v, a listed router or a reflector, advertises to its neighbour w, holding a route; `none` is nothing.
fn advertised(
    net: Network,
    distances: &[u8],
    w: usize,
    v: usize,
    route: RouteBytes,
    none: usize,
) -> usize
    requires { (net.n ≤ 64) × (w < net.n) × (v < net.n) × DistanceTable net.width distances.now net.n
        × RouteBelow net.n (route_of route) × (max (bit_n net.listed v) (bit_n net.reflectors v) ≡ 1)
        × (none ≡ no_key (numbers_of net distances.now w)) }
    ensures { (rows : List ℕ) → result ≡ told_key (numbers_of net distances.now w) v
        (advertises (decoded net rows distances.now) v (route_of route) w) }
{
    if base::bits::has_bit(net.listed, v) {
        return route_key(distances, net.width, net.n, w, v, v);
    }
    reflected(net, distances, w, v, route, none)
}

// The least key advertised to w, `none` if nothing is: of its neighbours only listed routers and reflectors advertise any.
fn best_heard(
    net: Network,
    rows: &[u64; 64],
    distances: &[u8],
    w: usize,
    table: &[u8],
    none: usize,
) -> usize
    requires { WellFormed net rows.now distances.now × (w < net.n) × RoutesIn net.n table.now
        × (none ≡ no_key (numbers_of net distances.now w)) }
    ensures { result ≡ least_key (numbers_of net distances.now w) (instance net rows.entry distances.entry) w
        (route_at table.now) net.n }
{
    let mut least = none;
    let mut left = rows[w] & (net.listed | net.reflectors);
    while left != 0 {
        let v = base::bits::lowest_bit(left);
        let held = net_tables::route_at(table, v);
        least = least.min(advertised(net, distances, w, v, held, none));
        left = base::bits::without_lowest(left);
    }
    least
}

// What v holds, if it is a route to v itself, else nothing.
fn own_route(v: usize, route: RouteBytes) -> RouteBytes
    ensures { route_of result ≡ own_route v (route_of route) }
{
    if base::wide(route.egress) == v {
        return route;
    }
    RouteBytes::none()
}

// The least key of the routes that their own egress advertises to w, `none` if there is none: by a listed neighbour, or by a reflector
// that holds a route to itself.
fn best_direct(
    net: Network,
    rows: &[u64; 64],
    distances: &[u8],
    w: usize,
    table: &[u8],
    none: usize,
) -> usize
    requires { WellFormed net rows.now distances.now × (w < net.n) × RoutesIn net.n table.now
        × (none ≡ no_key (numbers_of net distances.now w)) }
    ensures { result ≡ least_key (numbers_of net distances.now w) (instance net rows.entry distances.entry) w
        (own_routes (route_at table.now)) net.n }
{
    let mut least = none;
    let mut left = rows[w] & (net.listed | net.reflectors);
    while left != 0 {
        let v = base::bits::lowest_bit(left);
        let route = own_route(v, net_tables::route_at(table, v));
        least = least.min(advertised(net, distances, w, v, route, none));
        left = base::bits::without_lowest(left);
    }
    least
}

// Whether w is a reflector with the hop step. Who activates routers asks this, so that the code of the pass for the step stays out of theirs.
pub fn takes_step(net: Network, w: usize) -> bool
    requires { w < 64 }
    ensures { (rows distances : List ℕ) → result ≡ has_step (decoded net rows distances) w }
{
    base::bits::has_bit(net.reflectors & net.hop, w)
}

// The key of what unlisted w chooses, `none` for nothing. With the hop step a route that its own egress advertises comes first.
fn chosen(
    net: Network,
    rows: &[u64; 64],
    distances: &[u8],
    w: usize,
    table: &[u8],
    none: usize,
) -> usize
    requires { WellFormed net rows.now distances.now × (w < net.n) × RoutesIn net.n table.now
        × (none ≡ no_key (numbers_of net distances.now w)) }
    ensures { result ≡ chosen_key (numbers_of net distances.now w) (instance net rows.entry distances.entry) w
        (route_at table.now) }
{
    if takes_step(net, w) {
        let direct = best_direct(net, rows, distances, w, table, none);
        if direct < none {
            return direct;
        }
    }
    best_heard(net, rows, distances, w, table, none)
}

// Writes the route of a router to itself.
fn put_own(table: &mut [u8], w: usize)
    requires { (w < 64) × (2 * w + 2 ≤ length table.old) }
    ensures { table.new ≡ put_route table.old w (via w w) }
{
    net_tables::put_route(table, w, RouteBytes::own(w));
}

// Writes the route of a key, where `none` is that of nothing.
fn put_best(table: &mut [u8], w: usize, key: usize, none: usize)
    requires { 2 * w + 2 ≤ length table.old }
    ensures { (N : Numbers) → none ≡ no_key N → table.new ≡ put_route table.old w (key_route N key) }
{
    let best = key_route(key, none);
    net_tables::put_route(table, w, best);
}

// The act of router w on a table that obeys its rule.
pub fn activate(net: Network, rows: &[u64; 64], distances: &[u8], w: usize, table: &mut [u8])
    requires { WellFormed net rows.now distances.now × (w < net.n) × TableIn (instance net rows distances) table.old }
    ensures { table.new ≡ activate_bytes (instance net rows.entry distances.entry) w table.old }
{
    if base::bits::has_bit(net.listed, w) {
        put_own(table, w);
        return;
    }
    let none = no_key(net.width);
    let key = chosen(net, rows, distances, w, table, none);
    put_best(table, w, key, none);
}

// .. of one that has not the hop step: one pass is enough.
pub fn activate_in_one_pass(
    net: Network,
    rows: &[u64; 64],
    distances: &[u8],
    w: usize,
    table: &mut [u8],
)
    requires { WellFormed net rows.now distances.now × (w < net.n) × TableIn (instance net rows distances) table.old
        × (has_step (instance net rows distances) w ≡ false) }
    ensures { table.new ≡ activate_bytes (instance net rows.entry distances.entry) w table.old }
{
    if base::bits::has_bit(net.listed, w) {
        put_own(table, w);
        return;
    }
    let none = no_key(net.width);
    let key = best_heard(net, rows, distances, w, table, none);
    put_best(table, w, key, none);
}
