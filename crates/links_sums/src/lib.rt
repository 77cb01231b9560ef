// The least sums of a sheet, in a table of 64 words a router. A sum above 65,534 is held as 65,535, and so is no walk.

#![tactic(auto)]

ghost use Rattle.std.specs.Prelude.{◌≡◌, true, ◌≤◌};
ghost use Rattle.links_rules.specs.Sheet.{link_count, sheet_ok};
ghost use Rattle.links_rules.specs.Sums.{nowhere, staying, direct, least_sums};
ghost use Rattle.links_sums.specs.Words.{HoldsSums};

use links_words::{lower, pass_through};

// The sum of the walk of no link, at each router.
fn stay(words: &mut [u16], n: usize)
    requires { (n ≤ 64) × HoldsSums nowhere n words.old }
    ensures { HoldsSums staying n words.new }
{
    for u in 0..n {
        lower(words, u, u, 0);
    }
}

// The sums of the walks of one link.
fn add_links(links: &[u8], n: usize, words: &mut [u16])
    requires { (n ≤ 64) × (sheet_ok links.now n ≡ true) × HoldsSums staying n words.old }
    ensures { HoldsSums (direct links.now (link_count links.now)) n words.new }
{
    for k in 0..links.len() / 4 {
        let link = links_read::link_at(links, k);
        lower(words, link.from, link.to, link.weight);
    }
}

// The least sums over all walks.
pub fn least_sums(links: &[u8], n: usize, words: &mut [u16])
    requires { (n ≤ 64) × (sheet_ok links.now n ≡ true) × HoldsSums nowhere n words.old }
    ensures { HoldsSums (least_sums links.now n) n words.new }
{
    stay(words, n);
    add_links(links, n, words);
    for via in 0..n {
        pass_through(words, n, via);
    }
}
