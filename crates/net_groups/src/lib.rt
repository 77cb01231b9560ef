// The groups of a network read from a plan.

#![tactic(auto)]

ghost use Rattle.std.specs.Prelude.{◌≡◌, ◌≤◌, eqb, length};
ghost use Rattle.base.specs.Bits.{bit_n, bits, marked};
ghost use Rattle.base.specs.Seek.{count};
ghost use Rattle.net_rules.specs.Decoded.{instance};
ghost use Rattle.net_rules.specs.WellFormed.{WellFormed};
ghost use Rattle.net_groups.specs.GroupRows.{GroupRows};

use net_rules::Network;

// The routers below n that reach themselves, a bit each.
fn looping(closed: &[u64; 64], n: usize) -> u64
    requires { n ≤ 64 }
    ensures { result ≡ marked (λ w. eqb (bits closed.now w w) 1) n }
{
    let mut found = 0;
    for w in 0..n {
        found = base::bits::with_bit_if(found, w, base::bits::has_bit(closed[w], w));
    }
    found
}

// How many bits of a word are set.
pub fn how_many(word: u64) -> usize
    ensures { result ≡ count (bit_n word) 64 }
{
    u64::count_ones(word) as usize
}

// Finds who relies on whom and who reaches whom; returns the routers in groups of two or more, a bit each.
pub fn group_rows(
    net: Network,
    rows: &[u64; 64],
    distances: &[u8],
    relied: &mut [u64; 64],
    closed: &mut [u64; 64],
) -> u64
    requires { WellFormed net rows.now distances.now × (length relied.old ≡ 64) }
    ensures { GroupRows (instance net rows.entry distances.entry) relied.new closed.new result }
{
    let n = net.n;
    net_reliance::reliance_rows(net, rows, distances, relied);
    *closed = *relied;
    graph_groups::closing::close(closed, n);
    looping(closed, n)
}
