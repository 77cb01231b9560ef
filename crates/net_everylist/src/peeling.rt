// The pairs of a reflector and a client that are left, a row of bits for each reflector.

ghost use Rattle.std.specs.Prelude.{◌≡◌, ◌&&◌, ℕ, ◌≤◌, ◌<◌, eqb, leb, replicate};
ghost use Rattle.base.specs.Below.{any_below};
ghost use Rattle.base.specs.Bits.{bit_n};
ghost use Rattle.plan_rules.specs.Distances.{TwoOrFour, DistanceTable};
ghost use Rattle.everylist_rules.specs.Pairs.{is_pair};
ghost use Rattle.net_rules.specs.Decoded.{instance};
ghost use Rattle.net_rules.specs.WellFormed.{WellFormed};
ghost use Rattle.net_everylist.specs.Peeling.{key_at, no_key, WordBelow, LeastKey};
ghost use Rattle.net_everylist.specs.Peeling.{pair_in, PairsIn, foreign_among, LostFrom, AllPairs, OnePass, LeftRows};

use base::bits::{lowest_bit, with_bit_if, without, without_lowest};
use net_rules::Network;

// A client's key holds its number in the lowest six bits, and above them the distance.
const DISTANCE_PLACE: usize = 64;

// A client without a way has a key that is not lower than this one, and with a way it is lower: the highest number of a distance's bytes is
// no way.
fn no_key(width: usize) -> usize
    requires { TwoOrFour width }
    ensures { (result ≡ no_key width) × (64 ≤ result) }
{
    plan_distances::highest(width) * DISTANCE_PLACE
}

// The key of client e at w: the lower, the nearer.
fn client_key(distances: &[u8], width: usize, n: usize, w: usize, e: usize) -> usize
    requires { (w < n) × (e < n) × (n ≤ 64) × DistanceTable width distances.now n }
    ensures { result ≡ key_at width distances.now n w e }
{
    plan_distances::number(distances, width, n, w, e) * DISTANCE_PLACE + e
}

// The least key of a word's clients at w; `none` if that is lower.
fn least_key(distances: &[u8], width: usize, n: usize, w: usize, word: u64, none: usize) -> usize
    requires { (w < n) × (n ≤ 64) × DistanceTable width distances.now n × WordBelow word n }
    ensures { LeastKey (key_at width distances.now n w) (λ e. eqb (bit_n word e) 1) none n result }
{
    let mut least = none;
    let mut left = word;
    while left != 0 {
        let e = lowest_bit(left);
        least = least.min(client_key(distances, width, n, w, e));
        left = without_lowest(left);
    }
    least
}

// Of a word's clients, those whose key at w is a bound or lower.
fn upto_key(distances: &[u8], width: usize, n: usize, w: usize, word: u64, bound: usize) -> u64
    requires { (w < n) × (n ≤ 64) × DistanceTable width distances.now n × WordBelow word n }
    ensures { (e : ℕ) → eqb (bit_n result e) 1 ≡ (eqb (bit_n word e) 1 && leb (key_at width distances.now n w e) bound) }
{
    let mut found = 0;
    let mut left = word;
    while left != 0 {
        let e = lowest_bit(left);
        found = with_bit_if(found, e, client_key(distances, width, n, w, e) <= bound);
        left = without_lowest(left);
    }
    found
}

// The clients that make a pair with w: those of a reflector without the hop step that it neighbours and has a way to.
fn own_clients(net: Network, rows: &[u64; 64], distances: &[u8], w: usize) -> u64
    requires { WellFormed net rows.now distances.now × (w < net.n) }
    ensures { (c : ℕ) → eqb (bit_n result c) 1 ≡ is_pair (instance net rows.entry distances.entry) w c }
{
    if !base::bits::has_bit(without(net.reflectors, net.hop), w) {
        return 0;
    }
    let clients = without(rows[w], net.reflectors);
    upto_key(
        distances,
        net.width,
        net.n,
        w,
        clients,
        no_key(net.width) - 1,
    )
}

// All pairs; the rows are lent as zeros.
pub fn pair_rows(net: Network, rows: &[u64; 64], distances: &[u8], left: &mut [u64; 64])
    requires { WellFormed net rows.now distances.now × (left.old ≡ replicate 64 0) }
    ensures { AllPairs (instance net rows.entry distances.entry) left.new }
{
    for w in 0..net.n {
        left[w] = own_clients(net, rows, distances, w);
    }
}

// All clients left of several reflectors.
fn joined(left: &[u64; 64], n: usize, reflectors: u64) -> u64
    requires { (n ≤ 64) × WordBelow reflectors n }
    ensures { (e : ℕ) → eqb (bit_n result e) 1 ≡ any_below (λ v. eqb (bit_n reflectors v) 1 && pair_in left.now v e) n }
{
    let mut found = 0;
    let mut unseen = reflectors;
    while unseen != 0 {
        let v = lowest_bit(unseen);
        found = found | left[v];
        unseen = without_lowest(unseen);
    }
    found
}

// The least key at w of a foreign client: one left of a neighbouring reflector that w does not neighbour. It is no_key if w has a way to
// none.
pub fn foreign_key(
    net: Network,
    rows: &[u64; 64],
    distances: &[u8],
    left: &[u64; 64],
    w: usize,
) -> usize
    requires { WellFormed net rows.now distances.now × (w < net.n) × PairsIn (instance net rows distances) left.now }
    ensures { LeastKey (key_at net.width distances.now net.n w)
        (foreign_among (instance net rows.entry distances.entry) (pair_in left.now) w) (no_key net.width) net.n result }
{
    let near = rows[w];
    let heard = without(joined(left, net.n, near & net.reflectors), near);
    least_key(distances, net.width, net.n, w, heard, no_key(net.width))
}

// The clients of w that lead to none left: w has no nearer foreign client.
fn lost(net: Network, rows: &[u64; 64], distances: &[u8], left: &[u64; 64], w: usize) -> u64
    requires { WellFormed net rows.now distances.now × (w < net.n) × PairsIn (instance net rows distances) left.now }
    ensures { LostFrom (instance net rows.entry distances.entry) (pair_in left.now) w result }
{
    let row = left[w];
    if row == 0 {
        return 0;
    }
    let nearest = foreign_key(net, rows, distances, left, w);
    upto_key(distances, net.width, net.n, w, row, nearest)
}

// One pass over all reflectors: takes away in place what leads to none left. Returns the clients that were taken from any of them.
fn pass(net: Network, rows: &[u64; 64], distances: &[u8], left: &mut [u64; 64]) -> u64
    requires { WellFormed net rows.now distances.now × PairsIn (instance net rows distances) left.old }
    ensures { OnePass (instance net rows.entry distances.entry) left.old result left.new }
{
    let mut taken = 0;
    for w in 0..net.n {
        let gone = lost(net, rows, distances, left, w);
        left[w] = without(left[w], gone);
        taken |= gone;
    }
    taken
}

// Pass after pass, until one takes nothing away. Each before it takes at least one pair of r reflectors and n - r clients, so there are at
// most r * (n - r) + 1 passes, 1,025 for 64 routers.
pub fn peel(net: Network, rows: &[u64; 64], distances: &[u8], left: &mut [u64; 64])
    requires { WellFormed net rows.now distances.now × AllPairs (instance net rows distances) left.old }
    ensures { LeftRows (instance net rows.entry distances.entry) left.new }
{
    loop {
        let taken = pass(net, rows, distances, left);
        if taken == 0 {
            return;
        }
    }
}
