// The plan's first bytes and its length: refusals 1 and 2.

ghost use Rattle.std.specs.Prelude.{◌≡◌};
ghost use Rattle.plan_contents.specs.Header.{mark_ok, header_ok, width_of, router_count_ok};

// The byte of n, the number of routers.
pub const ROUTER_COUNT: usize = 4;

// The byte of the mark, 1 or 2 after the letters RRP.
pub const MARK: usize = 3;

// Plans of two-byte distances start RRP1, those of four-byte distances RRP2.
pub const NARROW: u8 = b'1';

pub const WIDE: u8 = b'2';

// No RRP1 plan has more bytes.
pub const LARGEST_NARROW: usize = 16731;

// No RRP2 plan has more, and so none at all.
pub const LARGEST_PLAN: usize = 24923;

// Whether a plan with this mark may be so long.
#[tactic(auto, unfolding(crate::specs::Header::mark_ok))]
fn mark_ok(mark: u8, plan_length: usize) -> bool
    ensures { result ≡ mark_ok mark plan_length }
{
    match mark {
        NARROW => plan_length <= LARGEST_NARROW,
        WIDE => plan_length <= LARGEST_PLAN,
        _ => false,
    }
}

#[tactic(auto, unfolding(crate::specs::Header::header_ok))]
pub fn header_ok(plan: &[u8]) -> bool
    ensures { result ≡ header_ok plan.now }
{
    26 <= plan.len() && plan.starts_with(b"RRP") && mark_ok(plan[MARK], plan.len()) && plan[5] == 4
}

// How many bytes a distance has in a plan with this mark.
pub fn width_of(mark: u8) -> u8
    ensures { result ≡ width_of mark }
{
    if mark == WIDE { 4 } else { 2 }
}

#[tactic(auto, unfolding(crate::specs::Header::router_count_ok))]
pub fn router_count_ok(n: u8) -> bool
    ensures { result ≡ router_count_ok n }
{
    (1..=64).contains(&n)
}
