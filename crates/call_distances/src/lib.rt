// Distances from a sheet of weighted links: the body of kind 3 for a plan.

#![tactic(auto)]

mod body;

ghost use Rattle.std.specs.Prelude.{◌≡◌, true, ◌≤◌};
ghost use Rattle.plan_contents.specs.Header.{router_count_ok};
ghost use Rattle.links_rules.specs.Sheet.{sheet_ok};
ghost use Rattle.links_rules.specs.Sums.{nowhere};
ghost use Rattle.links_sums.specs.Words.{HoldsSums};
ghost use Rattle.links_rules.specs.Distances.{DistancesCall};

// The call for a number of routers and links that pass. The least sums are worked out in `words`.
fn least_body(n: usize, links: &[u8], words: &mut [u16], out: &mut [u8]) -> u8
    requires { (n ≤ 64) × (router_count_ok n ≡ true) × (sheet_ok links.now n ≡ true) × HoldsSums nowhere n words.old }
    ensures { DistancesCall n links.now result out.old out.new }
{
    links_sums::least_sums(links, n, words);
    if !links_fit::sums_fit(links, n, words) {
        return 12;
    }
    if out.len() < 2 * (n * n) {
        return 9;
    }
    body::write_body(words, n, out);
    0
}

// Writes the least sum of weights over all walks from each router to each, 65,535 where there is no walk, two bytes each, row by row.
// Returns the refusal, 0 for none.
pub fn distances(n: usize, links: &[u8], out: &mut [u8]) -> u8
    ensures { DistancesCall n links.now result out.old out.new }
{
    if n < 1 {
        return 2;
    }
    if 64 < n {
        return 2;
    }
    if !links_read::sheet_ok(links, n as u8) {
        return 11;
    }
    // a smaller table is filled sooner
    if n <= 8 {
        let mut few = [links_words::FAR; 512];
        return least_body(n, links, &mut few, out);
    }
    let mut words = [links_words::FAR; 4096];
    least_body(n, links, &mut words, out)
}
