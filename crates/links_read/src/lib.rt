// The reader of a sheet of links, four bytes a link: refusal 11.

#![tactic(auto)]

ghost use Rattle.std.specs.Prelude.{◌≡◌, ◌+◌, ◌*◌, ◌≤◌, length};
ghost use Rattle.plan_rules.specs.Rising.{rises_at};
ghost use Rattle.links_rules.specs.Sheet.{link_before, link_ok, sheet_ok};
ghost use Rattle.links_read.specs.Link.{LinkIs};

// The most links of a sheet.
const LINKS_MOST: usize = 512;

// A link: where it leads from and to, and its weight.
#[derive(Clone, Copy)]
pub struct Link {
    pub from: usize,
    pub to: usize,
    pub weight: u16,
}

// Link k of a sheet.
pub fn link_at(s: &[u8], k: usize) -> Link
    requires { 4 * k + 4 ≤ length s.now }
    ensures { LinkIs s.now k result }
{
    Link {
        from: base::wide(s[4 * k]),
        to: base::wide(s[4 * k + 1]),
        weight: base::read2(s, 4 * k + 2) as u16,
    }
}

// Whether link k stands after the link before it, if there is one.
fn rises(s: &[u8], k: usize) -> bool
    requires { 4 * k + 4 ≤ length s.now }
    ensures { result ≡ rises_at (link_before s.now) k }
{
    k == 0 || (s[4 * (k - 1)], s[4 * (k - 1) + 1]) < (s[4 * k], s[4 * k + 1])
}

#[tactic(auto, unfolding(links_rules::specs::Sheet::link_ok))]
fn link_ok(s: &[u8], n: u8, k: usize) -> bool
    requires { 4 * k + 4 ≤ length s.now }
    ensures { result ≡ link_ok s.now n k }
{
    s[4 * k] < n && s[4 * k + 1] < n && 1 <= base::read2(s, 4 * k + 2) && rises(s, k)
}

pub fn sheet_ok(s: &[u8], n: u8) -> bool
    ensures { result ≡ sheet_ok s.now n }
{
    let count = s.len() / 4;
    s.len() % 4 == 0 && count <= LINKS_MOST && (0..count).all(|k| link_ok(s, n, k))
}
