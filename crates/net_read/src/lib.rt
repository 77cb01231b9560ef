// From the bytes of a plan that is not refused to its network with one of its lists, read once.

#![tactic(auto)]

ghost use Rattle.std.specs.Prelude.{◌≡◌, cond, not, ◌||◌, List, ℕ, ◌*◌, ◌^◌, ◌≤◌, ◌<◌, eqb, length, get_or, replicate};
ghost use Rattle.std.specs.Int.Bits.{bit_or};
ghost use Rattle.base.specs.Bits.{bit_n, bits};
ghost use Rattle.plan_contents.specs.Contents.{distances_body};
ghost use Rattle.plan_rules.specs.Routers.{role, reflector_in};
ghost use Rattle.plan_rules.specs.Sessions.{session_count, session_first, session_second, in_session};
ghost use Rattle.plan_rules.specs.EgressLists.{list_count};
ghost use Rattle.plan_read.specs.Checked.{Accepted};
ghost use Rattle.net_rules.specs.FromPlan.{skips_in, hop_in, named};
ghost use Rattle.net_rules.specs.Opened.{Opened};

use net_rules::Network;
use plan_contents::entries::{ROUTERS, SESSIONS};
use plan_read::lists::list_numbers;
use plan_read::parts::part;
use plan_read::refusal::CheckedPlan;
use plan_routers::CLIENT;

// The routers by what their role says of them: bit v of a word stands for router v.
#[derive(Clone, Copy)]
struct RoleWords {
    reflectors: u64,
    skips: u64,
    hop: u64,
}

// The words with router v added, by its role. Most routers have role 1 or 2, and of these no more is asked.
fn with_role(words: RoleWords, v: usize, role: u8) -> RoleWords
    requires { (v < 64) × (role ≤ 5) }
    ensures { (result.reflectors ≡ cond (not (eqb role 2)) (bit_or words.reflectors (2 ^ v)) words.reflectors)
        × (result.skips ≡ cond (eqb role 3 || eqb role 5) (bit_or words.skips (2 ^ v)) words.skips)
        × (result.hop ≡ cond (eqb role 4 || eqb role 5) (bit_or words.hop (2 ^ v)) words.hop) }
{
    let reflectors = base::bits::with_bit_if(words.reflectors, v, role != CLIENT);
    if role <= CLIENT {
        return RoleWords {
            reflectors,
            skips: words.skips,
            hop: words.hop,
        };
    }
    RoleWords {
        reflectors,
        skips: base::bits::with_bit_if(words.skips, v, plan_routers::skips_clients(role)),
        hop: base::bits::with_bit_if(words.hop, v, plan_routers::has_step(role)),
    }
}

// The reflectors, those of them that skip their clients, and those with the hop step; s is the body of kind 1.
fn role_words(s: &[u8], n: usize) -> RoleWords
    requires { (n ≤ 64) × (length s.now ≡ 5 * n) × ((v : ℕ) → v < n → role s.now v ≤ 5) }
    ensures { ((v : ℕ) → eqb (bit_n result.reflectors v) 1 ≡ reflector_in s.now n v)
        × ((v : ℕ) → eqb (bit_n result.skips v) 1 ≡ skips_in s.now n v)
        × ((v : ℕ) → eqb (bit_n result.hop v) 1 ≡ hop_in s.now n v) }
{
    let mut words = RoleWords {
        reflectors: 0,
        skips: 0,
        hop: 0,
    };
    for v in 0..n {
        words = with_role(words, v, s[5 * v]);
    }
    words
}

// The routers that a list's numbers name.
fn listed_word(numbers: &[u8]) -> u64
    requires { (j : ℕ) → j < length numbers.now → get_or numbers.now j 0 < 64 }
    ensures { (v : ℕ) → eqb (bit_n result v) 1 ≡ named numbers.now v }
{
    let mut word = 0;
    for number in numbers {
        word = base::bits::with_bit(word, base::wide(*number));
    }
    word
}

// The row of neighbours of each router; s is the body of kind 2.
fn neighbour_rows(s: &[u8], rows: &mut [u64; 64])
    requires { (rows.old ≡ replicate 64 0)
        × ((j : ℕ) → j < session_count s.now → (session_first s.now j < 64) × (session_second s.now j < 64)) }
    ensures { (w v : ℕ) → eqb (bits rows.new w v) 1 ≡ in_session s.now w v }
{
    for j in 0..s.len() / 2 {
        let first = base::wide(s[2 * j]);
        let second = base::wide(s[2 * j + 1]);
        base::bits::set_bit(rows, first, second);
        base::bits::set_bit(rows, second, first);
    }
}

// Opens a plan that is not refused with one of its lists; the rows of neighbours are lent as zeros.
pub fn open_plan(plan: &[u8], checked: CheckedPlan, list: usize, rows: &mut [u64; 64]) -> Network
    requires { Accepted plan.now checked × (list < list_count plan.now) × (rows.old ≡ replicate 64 0) }
    ensures { Opened plan.now list result rows.new (distances_body plan.now) }
{
    let n = checked.n as usize;
    let roles = role_words(part(plan, checked, ROUTERS), n);
    neighbour_rows(part(plan, checked, SESSIONS), rows);
    let listed = listed_word(list_numbers(plan, checked, list));
    Network {
        n,
        width: checked.width as usize,
        reflectors: roles.reflectors,
        skips: roles.skips,
        hop: roles.hop,
        listed,
    }
}

// The same plan opened with another of its lists: only who is listed is read anew.
pub fn with_list(plan: &[u8], checked: CheckedPlan, net: Network, other: usize) -> Network
    requires { Accepted plan.now checked × (other < list_count plan.now) }
    ensures { (k : ℕ) (rows distances : List ℕ) → Opened plan.now k net rows distances
        → Opened plan.now other result rows distances }
{
    let listed = listed_word(list_numbers(plan, checked, other));
    Network { listed, ..net }
}
