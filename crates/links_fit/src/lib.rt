// Refusal 12: whether some pair has a walk and a least sum above 65,534, which its word does not tell from no walk.

#![tactic(auto)]

ghost use Rattle.std.specs.Prelude.{◌≡◌, true, ◌++◌, ℕ, ◌*◌, ◌≤◌, ◌<◌, length, drop};
ghost use Rattle.base.specs.Tab.{tab};
ghost use Rattle.links_rules.specs.Sheet.{link_count, link_from, link_to, sheet_ok};
ghost use Rattle.links_rules.specs.Sums.{least_sums};
ghost use Rattle.links_rules.specs.Distances.{sums_ok};
ghost use Rattle.links_sums.specs.Words.{HoldsSums};
ghost use Rattle.links_fit.specs.Near.{row_fits, words_fit, near_to, within, links_within};

use base::bits::{with_bit_if, without};

fn row_fits(words: &[u16], n: usize, u: usize) -> bool
    requires { (n ≤ 64) × (u < n) × (64 * n ≤ length words.now) }
    ensures { result ≡ row_fits words.now n u }
{
    words[64 * u..64 * u + n].iter().all(|word| *word <= 65534)
}

// Whether every word is at most 65,534.
fn words_fit(words: &[u16], n: usize) -> bool
    requires { (n ≤ 64) × (64 * n ≤ length words.now) }
    ensures { result ≡ words_fit words.now n }
{
    (0..n).all(|u| row_fits(words, n, u))
}

// The routers with a word of at most 65,534 to e, a bit each.
fn near_to(words: &[u16], n: usize, e: usize) -> u64
    requires { (n ≤ 64) × (e < n) × (64 * n ≤ length words.now) }
    ensures { result ≡ near_to words.now n e }
{
    let mut found = 0;
    for u in 0..n {
        found = with_bit_if(found, u, words[64 * u + e] <= 65534);
    }
    found
}

// The same for every e.
fn near_to_each(words: &[u16], n: usize, found: &mut [u64; 64])
    requires { (n ≤ 64) × (64 * n ≤ length words.now) × (length found.old ≡ 64) }
    ensures { found.new ≡ tab (near_to words.now n) n ++ drop n found.old }
{
    for e in 0..n {
        found[e] = near_to(words, n, e);
    }
}

fn is_within(a: u64, b: u64) -> bool
    ensures { result ≡ within a b }
{
    without(a, b) == 0
}

// Whether every router near to where a link starts is near to where it ends.
fn links_within(links: &[u8], near: &[u64; 64]) -> bool
    requires { (k : ℕ) → k < link_count links.now → (link_from links.now k < 64) × (link_to links.now k < 64) }
    ensures { result ≡ links_within links.now near.now }
{
    (0..links.len() / 4).all(|k| {
        let link = links_read::link_at(links, k);
        is_within(near[link.from], near[link.to])
    })
}

// Whether every least sum is at most 65,534. A walk between two routers with a word of 65,535 goes along some link that starts at a
// word of at most 65,534, counted from where the walk starts, and ends at one of 65,535.
pub fn sums_fit(links: &[u8], n: usize, words: &[u16]) -> bool
    requires { (n ≤ 64) × (sheet_ok links.now n ≡ true) × HoldsSums (least_sums links.now n) n words.now }
    ensures { result ≡ sums_ok (least_sums links.now n) n }
{
    if words_fit(words, n) {
        return true;
    }
    let mut near = [0; 64];
    near_to_each(words, n, &mut near);
    links_within(links, &near)
}
