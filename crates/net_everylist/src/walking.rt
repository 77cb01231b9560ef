// The walk from reflector to reflector along the nearest foreign clients, over rows of the pairs that are left, and the list that it finds.

ghost use Rattle.std.specs.Prelude.{◌≡◌, true, ◌&&◌, List, ℕ, ◌+◌, ◌≤◌, ◌<◌, eqb, get_or, replicate};
ghost use Rattle.base.specs.Below.{any_below};
ghost use Rattle.base.specs.Bits.{bit_n};
ghost use Rattle.base.specs.Seek.{flag, seek};
ghost use Rattle.route_rules.specs.Instance.{Instance, is_router};
ghost use Rattle.everylist_rules.specs.Pairs.{has_left, nearest_foreign, walk, found};
ghost use Rattle.net_rules.specs.Decoded.{instance};
ghost use Rattle.net_rules.specs.WellFormed.{WellFormed};
ghost use Rattle.net_everylist.specs.Peeling.{WordBelow, pair_in, LeftRows};
ghost use Rattle.net_everylist.specs.Walking.{NextStep, Small, Steps};

use base::bits::{lowest_bit, without_lowest};
use net_rules::Network;

// Where the walk goes on: along the nearest foreign client, to the lowest neighbouring reflector that is left with it.
#[derive(Clone, Copy)]
struct Step {
    client: u8,
    next: u8,
}

// The lowest of several reflectors that is left with client e; n if none is. It is no Option: one of the caller's always is.
fn first_with(left: &[u64; 64], n: usize, reflectors: u64, e: usize) -> usize
    requires { (n ≤ 64) × (e < 64) × WordBelow reflectors n }
    ensures { result ≡ seek (λ v. flag (eqb (bit_n reflectors v) 1 && pair_in left.now v e)) n }
{
    let mut unseen = reflectors;
    while unseen != 0 {
        let v = lowest_bit(unseen);
        if base::bits::has_bit(left[v], e) {
            return v;
        }
        unseen = without_lowest(unseen);
    }
    n
}

// The step from a reflector with clients left.
fn next_step(net: Network, rows: &[u64; 64], distances: &[u8], left: &[u64; 64], w: usize) -> Step
    requires { WellFormed net rows.now distances.now × (w < net.n) × LeftRows (instance net rows distances) left.now
        × (0 < get_or left.now w 0) }
    ensures { NextStep (instance net rows.entry distances.entry) w result.client result.next }
{
    let client = crate::peeling::foreign_key(net, rows, distances, left, w) % 64;
    let next = first_with(left, net.n, rows[w] & net.reflectors, client);
    Step {
        client: client as u8,
        next: next as u8,
    }
}

// The step from each reflector with clients left; the bytes are lent as zeros.
fn steps(
    net: Network,
    rows: &[u64; 64],
    distances: &[u8],
    left: &[u64; 64],
    clients: &mut [u8; 64],
    nexts: &mut [u8; 64],
)
    requires { WellFormed net rows.now distances.now × LeftRows (instance net rows distances) left.now
        × (clients.old ≡ replicate 64 0) × (nexts.old ≡ replicate 64 0) }
    ensures { Steps (instance net rows.entry distances.entry) clients.new nexts.new }
{
    for w in 0..net.n {
        if left[w] != 0 {
            let on = next_step(net, rows, distances, left, w);
            clients[w] = on.client;
            nexts[w] = on.next;
        }
    }
}

// Where the walk is after so many steps more.
fn walked(nexts: &[u8; 64], start: usize, count: usize) -> usize
    requires { (start < 64) × Small nexts.now }
    ensures small { result < 64 }
    ensures there { (I : Instance) (clients : List ℕ) (k : ℕ) → Steps I clients nexts.now
        → any_below (has_left I) I.n ≡ true → start ≡ walk I k → result ≡ walk I (k + count) }
{
    let mut w = start;
    for _i in 0..count {
        w = base::wide(nexts[w]);
    }
    w
}

// The clients that the walk names in so many steps more.
fn named(clients: &[u8; 64], nexts: &[u8; 64], start: usize, count: usize) -> u64
    requires { (start < 64) × Small clients.now × Small nexts.now }
    ensures { (I : Instance) (k : ℕ) → Steps I clients.now nexts.now
        → any_below (has_left I) I.n ≡ true → start ≡ walk I k
        → (e : ℕ) → eqb (bit_n result e) 1 ≡ any_below (λ i. is_router e (nearest_foreign I (walk I (k + i)))) count }
{
    let mut word = 0;
    let mut w = start;
    for _i in 0..count {
        word = base::bits::with_bit(word, base::wide(clients[w]));
        w = base::wide(nexts[w]);
    }
    word
}

// The list that is found, where `first` is the lowest reflector with clients left: after n steps the walk goes round, and n more name it.
pub fn found_list(
    net: Network,
    rows: &[u64; 64],
    distances: &[u8],
    left: &[u64; 64],
    first: usize,
) -> u64
    requires { WellFormed net rows.now distances.now × LeftRows (instance net rows distances) left.now
        × (first < net.n) × (first ≡ walk (instance net rows distances) 0) }
    ensures { (e : ℕ) → eqb (bit_n result e) 1 ≡ found (instance net rows.entry distances.entry) e }
{
    let mut clients = [0u8; 64];
    let mut nexts = [0u8; 64];
    steps(net, rows, distances, left, &mut clients, &mut nexts);
    let start = walked(&nexts, first, net.n);
    named(&clients, &nexts, start, net.n)
}
