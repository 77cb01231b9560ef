// A routing table in the caller's bytes: an entry read, an entry written, and the table's rule.

#![tactic(auto)]

ghost use Rattle.std.specs.Prelude.{◌≡◌, List, ℕ, ◌+◌, ◌*◌, ◌≤◌, ◌<◌, eqb, length};
ghost use Rattle.base.specs.Bits.{bit_n};
ghost use Rattle.route_rules.specs.Activation.{entry_ok};
ghost use Rattle.route_rules.specs.Instance.{nothing, via};
ghost use Rattle.net_rules.specs.Decoded.{decoded};
ghost use Rattle.net_tables.specs.TableBytes.{route_at, put_route, route_of, table_rule};

use net_rules::{NO_ROUTER, Network};

// An entry's two bytes.
#[derive(Clone, Copy)]
pub struct RouteBytes {
    pub egress: u8,
    pub sender: u8,
}

impl RouteBytes {
    // No route.
    pub fn none() -> RouteBytes
        ensures { route_of result ≡ nothing }
    {
        RouteBytes {
            egress: NO_ROUTER,
            sender: NO_ROUTER,
        }
    }

    // The route of router v to itself.
    pub fn own(v: usize) -> RouteBytes
        requires { v < 64 }
        ensures { route_of result ≡ via v v }
    {
        RouteBytes {
            egress: v as u8,
            sender: v as u8,
        }
    }
}

pub fn route_at(table: &[u8], v: usize) -> RouteBytes
    requires { 2 * v + 2 ≤ length table.now }
    ensures { route_of result ≡ route_at table.now v }
{
    RouteBytes {
        egress: table[2 * v],
        sender: table[2 * v + 1],
    }
}

pub fn put_route(table: &mut [u8], v: usize, route: RouteBytes)
    requires { 2 * v + 2 ≤ length table.old }
    ensures { table.new ≡ put_route table.old v (route_of route) }
{
    table[2 * v] = route.egress;
    table[2 * v + 1] = route.sender;
}

// Whether a row has router s, which may be any number.
fn in_row(row: u64, s: usize) -> bool
    ensures { result ≡ eqb (bit_n row s) 1 }
{
    if 64 <= s {
        return false;
    }
    base::bits::has_bit(row, s)
}

// The rule of router v's entry, whatever the distances.
fn entry_ok(net: Network, rows: &[u64; 64], v: usize, route: RouteBytes) -> bool
    requires { (net.n ≤ 64) × (v < net.n) }
    ensures { (distances : List ℕ) → result ≡ entry_ok (decoded net rows.now distances) v (route_of route) }
{
    let egress = base::wide(route.egress);
    let sender = base::wide(route.sender);
    if base::bits::has_bit(net.listed, v) {
        if egress != v {
            return false;
        }
        return sender == v;
    }
    if route.egress == NO_ROUTER {
        return route.sender == NO_ROUTER;
    }
    if net.n <= egress {
        return false;
    }
    in_row(rows[v], sender)
}

// The rule of a routing table, which is in the first 2n bytes.
pub fn table_ok(net: Network, rows: &[u64; 64], table: &[u8]) -> bool
    requires { (net.n ≤ 64) × (2 * net.n ≤ length table.now) }
    ensures { (distances : List ℕ) → result ≡ table_rule (decoded net rows.now distances) table.now }
{
    (0..net.n).all(|v| entry_ok(net, rows, v, route_at(table, v)))
}
