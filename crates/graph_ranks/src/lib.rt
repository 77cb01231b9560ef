// Ranks of a relation in which no router reaches itself, given as rows of bits.

#![tactic(auto)]

ghost use Rattle.std.specs.Prelude.{◌≡◌, ◌++◌, ◌≤◌, length, drop};
ghost use Rattle.base.specs.Tab.{tab};
ghost use Rattle.base.specs.Bits.{bits};
ghost use Rattle.graph_groups.specs.Closure.{Within, Acyclic};
ghost use Rattle.graph_ranks.specs.Rank.{rank, highest_rank};
ghost use Rattle.graph_ranks.specs.Search.{RankAsked, RankFound};

use base::bits::{lowest_bit, without_lowest};
use base::wide;

// The mark of a rank that is not known yet. No rank is as high.
const UNKNOWN: u8 = 255;

// The rank of w, by recursion along the relation. `left` is more than the routers left on the chains from w.
// `known` keeps each rank once it is found.
fn rank_of(rows: &[u64; 64], n: usize, w: usize, left: usize, known: &mut [u8]) -> usize
    requires { RankAsked (bits rows.now) n w left known.old }
    ensures { RankFound (bits rows.now) n w known.old known.new result }
{
    let found = known[w];
    if found != UNKNOWN {
        return wide(found);
    }
    let mut high = 0;
    let mut ahead = rows[w];
    while ahead != 0 {
        let v = lowest_bit(ahead);
        let r = rank_of(rows, n, v, left - 1, known);
        high = high.max(r + 1);
        ahead = without_lowest(ahead);
    }
    known[w] = high as u8;
    high
}

// Marks the first n bytes as not known.
fn forget(out: &mut [u8], n: usize)
    requires { n ≤ length out.old }
    ensures { out.new ≡ tab (λ v. 255) n ++ drop n out.old }
{
    out[..n].fill(UNKNOWN);
}

// Writes the rank of each router to the first n bytes of `out`, and returns the highest.
pub fn ranks(rows: &[u64; 64], n: usize, out: &mut [u8]) -> usize
    requires { (n ≤ 64) × (n ≤ length out.old) × Acyclic (bits rows.now) n × Within (bits rows.now) n }
    ensures highest { result ≡ highest_rank (bits rows.now) n }
    ensures written { out.new ≡ tab (rank (bits rows.now) n) n ++ drop n out.old }
{
    forget(out, n);
    let mut high = 0;
    for w in 0..n {
        let r = rank_of(rows, n, w, n, out);
        high = high.max(r);
    }
    high
}
