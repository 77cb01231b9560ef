// Kind 4, the egress lists: refusal 7.

#![tactic(auto)]

ghost use Rattle.std.specs.Prelude.{◌≡◌, ◌+◌, ◌≤◌, ◌<◌, length};
ghost use Rattle.plan_rules.specs.Lists.{member_ok, list_at_ok, each_list_ok, lists_ok};
ghost use Rattle.base.specs.Below.{all_below};

#[tactic(auto, unfolding(plan_rules::specs::Lists::member_ok))]
fn member_ok(s: &[u8], n: u8, place: usize, j: usize) -> bool
    requires { place + 1 + j < length s.now }
    ensures { result ≡ member_ok s.now n place j }
{
    let number = s[place + 1 + j];
    number < n && (j == 0 || s[place + 1 + (j - 1)] < number)
}

fn members_ok(s: &[u8], n: u8, place: usize, count: usize) -> bool
    requires { place + 1 + count ≤ length s.now }
    ensures { result ≡ all_below (member_ok s.now n place) count }
{
    (0..count).all(|j| member_ok(s, n, place, j))
}

#[tactic(auto, unfolding(plan_rules::specs::Lists::list_at_ok))]
fn list_at_ok(s: &[u8], n: u8, place: usize) -> bool
    ensures { result ≡ list_at_ok s.now n place }
{
    let Some(&count) = s.get(place) else {
        return false;
    };
    let members = base::wide(count);
    count <= n && place + 1 + members <= s.len() && members_ok(s, n, place, members)
}

// The lists one after the other, and nothing after the last.
fn each_list_ok(s: &[u8], n: u8, lists: u8) -> bool
    requires { 1 ≤ length s.now }
    ensures { result ≡ each_list_ok s.now n lists }
{
    let mut place = 1;
    for _k in 0..lists {
        if !list_at_ok(s, n, place) {
            return false;
        }
        place += 1 + base::wide(s[place]);
    }
    place == s.len()
}

#[tactic(auto, unfolding(plan_rules::specs::Lists::lists_ok))]
pub fn lists_ok(s: &[u8], n: u8) -> bool
    ensures { result ≡ lists_ok s.now n }
{
    match s.first() {
        Some(lists) => (1..=64).contains(lists) && each_list_ok(s, n, *lists),
        None => false,
    }
}
