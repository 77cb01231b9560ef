// The figures over all lists of a plan: one list more, over a network read from the plan.

#![tactic(auto)]

ghost use Rattle.std.specs.Prelude.{◌≡◌, ℕ, ◌<◌, length, get_or};
ghost use Rattle.base.specs.Bits.{bit_n};
ghost use Rattle.base.specs.Lent.{lent};
ghost use Rattle.figures_rules.specs.Figures.{higher_of};
ghost use Rattle.net_rules.specs.Decoded.{instance};
ghost use Rattle.net_rules.specs.WellFormed.{WellFormed};
ghost use Rattle.net_figures.specs.Counted.{Raised, Countable, ListCounted};

use base::bits::{lowest_bit, without_lowest};
use figures_rules::report::Figures;
use net_rules::Network;

// The higher of the highest rank so far and one more rank.
fn higher(known: Option<usize>, rank: usize) -> Option<usize>
    ensures { result ≡ higher_of known rank }
{
    Some(known.map_or(rank, |highest| highest.max(rank)))
}

// Counts each router whose bit is set once more.
fn count_routers(word: u64, counts: &mut [u8])
    requires { (w : ℕ) → bit_n word w ≡ 1 → (w < 64) × (w < length counts.old) × (get_or counts.old w 0 < 255) }
    ensures { (n : ℕ) → ((w : ℕ) → bit_n word w ≡ 1 → w < n)
        → Raised (bit_n word) n counts.old counts.new }
{
    let mut left = word;
    while left != 0 {
        let w = lowest_bit(left);
        counts[w] += 1;
        left = without_lowest(left);
    }
}

// Counts one list more: if it is stable by its highest rank, and else the routers in its groups of two or more.
pub fn count_list(
    net: Network,
    rows: &[u64; 64],
    distances: &[u8],
    known: Figures,
    ranks: &mut [u8],
    routers: &mut [u8],
) -> Figures
    requires { WellFormed net rows.now distances.now × Countable net.n known ranks.old routers.old }
    ensures { ListCounted (instance net rows.entry distances.entry) known result (lent ranks) (lent routers) }
{
    let so_far = known.highest;
    let mut relied = [0u64; 64];
    let mut closed = [0u64; 64];
    let grouped = net_groups::group_rows(net, rows, distances, &mut relied, &mut closed);
    if grouped != 0 {
        count_routers(grouped, routers);
        return Figures {
            stable: known.stable,
            suspect: known.suspect + 1,
            highest: so_far,
        };
    }
    let mut each = [0u8; 64];
    let highest = graph_ranks::ranks(&relied, net.n, &mut each);
    ranks[highest] += 1;
    Figures {
        stable: known.stable + 1,
        suspect: known.suspect,
        highest: higher(so_far, highest),
    }
}
