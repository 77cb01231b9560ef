// A smallest set of reflectors that makes a list stable once they have the hop step, worked out from the groups of a network. At most 12
// routers are in groups of two or more here. The i-th of them, lowest first, has place i; a set is a number with a bit for each place.

#![tactic(auto)]

ghost use Rattle.std.specs.Prelude.{◌≡◌, cond, List, ℕ, suc, ◌<◌, ◌≤◌, ◌^◌, leb, length, get_or, MatchOption};
ghost use Rattle.std.specs.Int.Count.{ones};
ghost use Rattle.base.specs.Bits.{bit_n};
ghost use Rattle.base.specs.Seek.{flag, seek, count};
ghost use Rattle.route_rules.specs.Instance.{Instance};
ghost use Rattle.hopset_rules.specs.HopSet.{set_of, serves, hop_set};
ghost use Rattle.net_groups.specs.GroupRows.{GroupRows};
ghost use Rattle.net_hopset.specs.Places.{PlaceRows, is_free, Places, Tried, Best};

// Whom the router at each place relies on, by places.
fn place_rows(relied: &[u64; 64], word: u64, rows: &mut [u64; 12])
    requires { (count (bit_n word) 64 ≤ 12) × (length rows.old ≡ 12) }
    ensures { PlaceRows relied.now word rows.new }
{
    let mut i = 0;
    let mut left = word;
    while left != 0 {
        let w = base::bits::lowest_bit(left);
        rows[i] = net_steady::building::number(word, relied[w]);
        i += 1;
        left = base::bits::without_lowest(left);
    }
}

// The first place left that relies on none left.
fn free_place(rows: &[u64; 12], left: u64) -> Option<usize>
    requires { (u : ℕ) → bit_n left u ≡ 1 → u < 12 }
    ensures { let first = seek (λ i. flag (is_free (get_or rows.now i 0) left i)) 12 in
        MatchOption result (12 ≡ first) (λ i. (i < 12) × (i ≡ first)) }
{
    let mut unseen = left;
    while unseen != 0 {
        let i = base::bits::lowest_bit(unseen);
        if rows[i] & left == 0 {
            return Some(i);
        }
        unseen = base::bits::without_lowest(unseen);
    }
    None
}

// Whether the set with number x serves, where `served` has the higher numbers that do, and `all` is the number of all places. It does if no
// place is left. Else, with a place more that relies on none left, it serves exactly if the higher number does; without one it does not.
fn serves(rows: &[u64; 12], served: &[u64; 64], all: u64, x: u64) -> bool
    requires { (x < 4096) × (all < 4096) }
    ensures { (I : Instance) (k : ℕ) → Places I rows.now k all → x < 2 ^ k → Tried I k served.now (suc x)
        → result ≡ serves I (set_of I x) }
{
    let left = base::bits::without(all, x);
    if left == 0 {
        return true;
    }
    let Some(i) = free_place(rows, left) else {
        return false;
    };
    net_steady::listing::has_number(served, base::bits::with_bit(x, i) as usize)
}

// The one with fewer bits; x if they have as many.
fn smaller(best: u64, x: u64) -> u64
    ensures { result ≡ cond (leb (ones x) (ones best)) x best }
{
    if u64::count_ones(x) <= u64::count_ones(best) {
        return x;
    }
    best
}

// Tries x, where all higher numbers were tried: notes it if it serves, and returns the best so far.
fn try_number(rows: &[u64; 12], served: &mut [u64; 64], all: u64, x: u64, best: u64) -> u64
    requires { (x < 4096) × (all < 4096) × (length served.old ≡ 64) }
    ensures size { length served.new ≡ 64 }
    ensures tried { (I : Instance) (k : ℕ) → Places I rows.now k all → x < 2 ^ k → Tried I k served.old (suc x)
        → Best I k best (suc x) → Tried I k served.new x × Best I k result x }
{
    if !serves(rows, served, all, x) {
        return best;
    }
    net_steady::building::mark(served, x);
    smaller(best, x)
}

// The best of all numbers, from the highest down.
fn search(rows: &[u64; 12], k: usize, all: u64) -> u64
    requires { (k ≤ 12) × (all < 2 ^ k) }
    ensures { (I : Instance) → Places I rows.now k all → result ≡ hop_set I }
{
    let mut served = [0u64; 64];
    let mut best = all;
    for x in (0..base::bits::with_bit(0, k)).rev() {
        best = try_number(rows, &mut served, all, x, best);
    }
    best
}

// The number of a smallest set that serves, the lowest of these: `relied` has whom each router relies on, and `word` the routers in groups
// of two or more.
pub fn hop_set(relied: &[u64; 64], word: u64) -> u64
    requires { count (bit_n word) 64 ≤ 12 }
    ensures { (I : Instance) (closed : List ℕ) → I.n ≤ 64 → GroupRows I relied.now closed word → result ≡ hop_set I }
{
    let mut rows = [0u64; 12];
    place_rows(relied, word, &mut rows);
    let all = net_steady::building::number(word, word);
    search(&rows, net_groups::how_many(word), all)
}
