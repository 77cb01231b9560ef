// Kind 2, sessions: refusals 5 and 13, in one pass. Sessions rise, so those with one first router stand together, and its role is asked
// once for all of them.

#![tactic(auto)]

ghost use Rattle.std.specs.Prelude.{◌≡◌, ◌+◌, ◌*◌, ◌≤◌, ◌<◌, length, replicate};
ghost use Rattle.plan_parents.specs.Counts.{Counted};
ghost use Rattle.plan_sessions.specs.Walk.{Reached, Walked, Answers, goes_on};

// Whether session j is one more of router v, which is its first, after that with router `last`.
fn goes_on(s: &[u8], n: usize, v: usize, last: usize, j: usize) -> bool
    requires { 2 * j + 2 ≤ length s.now }
    ensures { result ≡ goes_on s.now n v last j }
{
    let second = base::wide(s[2 * j + 1]);
    base::wide(s[2 * j]) == v && last < second && second < n
}

// Reads the sessions of router v, from session `from` on, and gives the session after them.
fn sessions_of(
    routers: &[u8],
    s: &[u8],
    n: usize,
    v: usize,
    from: usize,
    counts: &mut [u8; 64],
) -> usize
    requires { (v < n) × (n ≤ 64) × (5 * n ≤ length routers.now)
        × Reached s.now n v from × Counted routers.now s.now n v from counts.old }
    ensures { Reached s.now n (v + 1) result
        × Counted routers.now s.now n (v + 1) result counts.new }
{
    let count = s.len() / 2;
    let reflector = plan_routers::is_reflector(routers, v);
    plan_parents::forget(reflector, v, counts);
    let mut last = v;
    for j in from..count {
        if !goes_on(s, n, v, last, j) {
            return j;
        }
        last = base::wide(s[2 * j + 1]);
        plan_parents::note(routers, reflector, v, last, counts);
    }
    count
}

// Whether all sessions are in order, and a router that is past the first one of each, if they are.
#[derive(Clone, Copy)]
struct Walk {
    ordered: bool,
    past: usize,
}

// Reads all sessions; the counts are lent as zeros. A `while`, since what moves on is the session, and by as many as a router has.
fn walk_all(routers: &[u8], s: &[u8], n: usize, counts: &mut [u8; 64]) -> Walk
    requires { (n ≤ 64) × (5 * n ≤ length routers.now) × (counts.old ≡ replicate 64 0) }
    ensures { Walked routers.now s.now n result.ordered result.past counts.new }
{
    let count = s.len() / 2;
    let mut v = 0;
    let mut j = 0;
    while j < count {
        if n <= v {
            return Walk {
                ordered: false,
                past: v,
            };
        }
        j = sessions_of(routers, s, n, v, j, counts);
        v += 1;
    }
    Walk {
        ordered: true,
        past: v,
    }
}

// The answers to rows 5 and 13.
#[derive(Clone, Copy)]
pub struct SessionAnswers {
    pub ordered: bool,
    pub few: bool,
}

pub fn answers(routers: &[u8], s: &[u8], n: usize) -> SessionAnswers
    requires { (n ≤ 64) × (5 * n ≤ length routers.now) }
    ensures { Answers routers.now s.now n result.ordered result.few }
{
    let mut counts = [0; 64];
    let walk = walk_all(routers, s, n, &mut counts);
    if !walk.ordered {
        return SessionAnswers {
            ordered: false,
            few: false,
        };
    }
    SessionAnswers {
        ordered: true,
        few: plan_parents::few(routers, n, walk.past, &counts),
    }
}
