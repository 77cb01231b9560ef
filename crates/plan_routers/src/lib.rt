// Kind 1, routers: refusal 4.

#![tactic(auto)]

ghost use Rattle.std.specs.Prelude.{◌≡◌, not, ◌||◌, ◌+◌, ◌*◌, ◌≤◌, ◌<◌, eqb, length};
ghost use Rattle.plan_rules.specs.Routers.{role, router_ok, routers_ok};

// The role of a client; each other role is a reflector's.
pub const CLIENT: u8 = 2;

// The roles of a reflector that skips its clients, of one with the hop step, and of one with both.
const SKIPPING: u8 = 3;

const STEPPING: u8 = 4;

const BOTH: u8 = 5;

// Whether a router of this role skips its clients.
pub fn skips_clients(role: u8) -> bool
    ensures { result ≡ (eqb role 3 || eqb role 5) }
{
    role == SKIPPING || role == BOTH
}

// Whether a router of this role, one that is admitted, has the hop step: the two roles with it are the highest.
pub fn has_step(role: u8) -> bool
    requires { role ≤ 5 }
    ensures { result ≡ (eqb role 4 || eqb role 5) }
{
    STEPPING <= role
}

pub fn is_reflector(s: &[u8], v: usize) -> bool
    requires { 5 * v < length s.now }
    ensures { result ≡ not (eqb (role s.now v) 2) }
{
    s[5 * v] != CLIENT
}

#[tactic(auto, unfolding(plan_rules::specs::Routers::router_ok))]
fn router_ok(s: &[u8], v: usize) -> bool
    requires { 5 * v + 5 ≤ length s.now }
    ensures { result ≡ router_ok s.now v }
{
    (1..=5).contains(&s[5 * v])
        && (v == 0 || base::read4(s, 5 * (v - 1) + 1) < base::read4(s, 5 * v + 1))
}

pub fn routers_ok(s: &[u8], n: usize) -> bool
    requires { 5 * n ≤ length s.now }
    ensures { result ≡ routers_ok s.now n }
{
    (0..n).all(|v| router_ok(s, v))
}
