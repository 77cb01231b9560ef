// The parents of clients, counted session by session: refusal 13. A byte of `counts` is a router's.

#![tactic(auto)]

ghost use Rattle.std.specs.Prelude.{◌≡◌, not, List, ℕ, ◌+◌, ◌*◌, ◌≤◌, ◌<◌, eqb, length, get_or};
ghost use Rattle.base.specs.Below.{all_below};
ghost use Rattle.base.specs.Seek.{highest};
ghost use Rattle.plan_rules.specs.Routers.{role};
ghost use Rattle.plan_rules.specs.Sessions.{session_count, session_first};
ghost use Rattle.plan_rules.specs.Parents.{parents_ok};
ghost use Rattle.plan_parents.specs.Counts.{Counted, forgotten, noted, few_counted};

// The most parents that a client may have.
const MOST: u8 = 4;

// Before v's own sessions: sets the count of a reflector to 0, which matters to no row and leaves few counts high.
pub fn forget(reflector: bool, v: usize, counts: &mut [u8; 64])
    requires { v < 64 }
    ensures { counts.new ≡ forgotten reflector v counts.old }
{
    if reflector {
        counts[v] = 0;
    }
}

// Counts a session of v with w, of which v has the lower number: for w if v is a reflector, else for v if w is one.
pub fn note(routers: &[u8], reflector: bool, v: usize, w: usize, counts: &mut [u8; 64])
    requires { (v < 64) × (w < 64) × (5 * w < length routers.now) × ((u : ℕ) → u < 64 → get_or counts.old u 0 < 255) }
    ensures { counts.new ≡ noted reflector (not (eqb (role routers.now w) 2)) v w counts.old }
{
    if reflector {
        counts[w] += 1;
        return;
    }
    if plan_routers::is_reflector(routers, w) {
        counts[v] += 1;
    }
}

// The highest count.
fn greatest(counts: &[u8; 64]) -> u8
    ensures { result ≡ highest (λ u. get_or counts.now u 0) 64 }
{
    let mut most = 0;
    for count in counts {
        most = most.max(*count);
    }
    most
}

// Whether v has at most four parents by its count, or is a reflector.
fn few_of(routers: &[u8], v: usize, counts: &[u8; 64]) -> bool
    requires { (v < 64) × (5 * v < length routers.now) }
    ensures { result ≡ few_counted routers.now counts.now v }
{
    counts[v] <= MOST || plan_routers::is_reflector(routers, v)
}

// Whether so it is with every router before `end`.
fn few_before(routers: &[u8], end: usize, counts: &[u8; 64]) -> bool
    requires { (end ≤ 64) × (5 * end ≤ length routers.now) }
    ensures { result ≡ all_below (few_counted routers.now counts.now) end }
{
    (0..end).all(|v| few_of(routers, v, counts))
}

// Row 13, by the counts after sessions whose first routers are before `past`. None has five parents if there are but four routers. If
// `past` is at most four, only the routers before it may: those from `past` on have parents before `past` alone. Else the greatest count
// mostly tells at once that none has.
pub fn few(routers: &[u8], n: usize, past: usize, counts: &[u8; 64]) -> bool
    requires { (past ≤ n) × (n ≤ 64) × (5 * n ≤ length routers.now) }
    ensures { (s : List ℕ) → ((j : ℕ) → j < session_count s → session_first s j < past)
        → Counted routers.now s n past (session_count s) counts.now → result ≡ parents_ok routers.now s n }
{
    if n <= MOST as usize {
        return true;
    }
    if past <= MOST as usize {
        return few_before(routers, past, counts);
    }
    if greatest(counts) <= MOST {
        return true;
    }
    few_before(routers, n, counts)
}
