// Whether a network is stable for every list, over a network read from a plan: pairs of a reflector and a client are taken away until each
// left leads to one left, and from these a list is found and judged.

#![tactic(auto)]

pub mod peeling;
pub mod walking;

ghost use Rattle.std.specs.Prelude.{◌≡◌, ◌++◌, ◌≤◌, ◌<◌, eqb, length, get_or, drop, MatchOption};
ghost use Rattle.base.specs.Bits.{bit_n};
ghost use Rattle.base.specs.Lent.{lent};
ghost use Rattle.base.specs.Seek.{seek};
ghost use Rattle.everylist_rules.specs.EveryList.{stable_for};
ghost use Rattle.steady_rules.specs.Numbers.{numbers_where};
ghost use Rattle.net_rules.specs.Decoded.{instance};
ghost use Rattle.net_rules.specs.WellFormed.{WellFormed};
ghost use Rattle.net_everylist.specs.Peeling.{WordBelow};
ghost use Rattle.net_everylist.specs.EveryList.{Answered};

use net_rules::Network;

// Stable for every list; or not, with how many routers the list has for which it is suspect; or undecided.
#[derive(Clone, Copy)]
pub enum EveryList {
    Yes,
    No(usize),
    Undecided,
}

// The lowest router with a bit in its row.
fn first_left(left: &[u64; 64], n: usize) -> Option<usize>
    requires { n ≤ 64 }
    ensures { let first = seek (λ w. get_or left.now w 0) n in MatchOption result (n ≡ first) (λ w. (w < n) × (w ≡ first)) }
{
    (0..n).find(|w| left[*w] != 0)
}

// Whether the network with these routers listed is stable: the verdict's own test.
fn stable_with(net: Network, rows: &[u64; 64], distances: &[u8], listed: u64) -> bool
    requires { WellFormed net rows.now distances.now }
    ensures { result ≡ stable_for (instance net rows.entry distances.entry) (λ v. eqb (bit_n listed v) 1) }
{
    let judged = Network { listed, ..net };
    let mut relied = [0u64; 64];
    let mut closed = [0u64; 64];
    net_groups::group_rows(judged, rows, distances, &mut relied, &mut closed) == 0
}

// Writes the numbers of a word's bits, rising; returns how many there are.
fn write_list(word: u64, n: usize, list: &mut [u8]) -> usize
    requires { (n ≤ 64) × (n ≤ length list.old) × WordBelow word n }
    ensures count { result ≡ length (numbers_where (λ e. eqb (bit_n word e) 1) n) }
    ensures written { list.new ≡ numbers_where (λ e. eqb (bit_n word e) 1) n ++ drop result list.old }
{
    let mut i = 0;
    let mut left = word;
    while left != 0 {
        let e = base::bits::lowest_bit(left);
        list[i] = e as u8;
        i += 1;
        left = base::bits::without_lowest(left);
    }
    i
}

// Whether the network is stable for every list, whatever its own. If not, writes a list of clients for which it is suspect.
pub fn every_list(net: Network, rows: &[u64; 64], distances: &[u8], list: &mut [u8]) -> EveryList
    requires { WellFormed net rows.now distances.now × (net.n ≤ length list.old) }
    ensures { Answered (instance net rows.entry distances.entry) result (lent list) }
{
    let n = net.n;
    let mut left = [0u64; 64];
    peeling::pair_rows(net, rows, distances, &mut left);
    peeling::peel(net, rows, distances, &mut left);
    let Some(first) = first_left(&left, n) else {
        return EveryList::Yes;
    };
    let word = walking::found_list(net, rows, distances, &left, first);
    if stable_with(net, rows, distances, word) {
        return EveryList::Undecided;
    }
    EveryList::No(write_list(word, n, list))
}
