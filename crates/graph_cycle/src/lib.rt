// The cycle of a relation that is not stable, given as rows of bits.

#![tactic(auto)]

ghost use Rattle.std.specs.Prelude.{◌≡◌, ◌++◌, ◌≤◌, ◌<◌, MatchOption, eqb, length, get_or, drop};
ghost use Rattle.base.specs.Seek.{flag, seek};
ghost use Rattle.base.specs.Bits.{bits};
ghost use Rattle.graph_groups.specs.Closure.{Within};
ghost use Rattle.graph_cycle.specs.Cycle.{start, next, trail, cycle, CycleAsked};
ghost use Rattle.graph_cycle.specs.Follow.{LoopsGrouped, FollowAsked, Followed};

use base::bits::{bit, lowest_bit, without_lowest};
use base::wide;
use graph_groups::groups::share;

// The lowest router in a group of two or more, n if there is none: those are the routers that reach themselves. Here and in `next_router`
// no Option stands for none: the walk always has a next router, so that its caller would test for nothing.
fn first_grouped(closed: &[u64; 64], n: usize) -> usize
    requires { (n ≤ 64) × LoopsGrouped (bits closed.now) n }
    ensures { result ≡ start (bits closed.now) n }
{
    (0..n).find(|i| bit(closed[*i], *i) == 1).unwrap_or(n)
}

// The lowest router that w is related to in its group, n if there is none.
fn next_router(rows: &[u64; 64], closed: &[u64; 64], n: usize, w: usize) -> usize
    requires { (n ≤ 64) × (w < n) × Within (bits rows.now) n }
    ensures { result ≡ next (bits rows.now) (bits closed.now) n w }
{
    let mut left = rows[w];
    while left != 0 {
        let v = lowest_bit(left);
        if 0 < share(closed, w, v) {
            return v;
        }
        left = without_lowest(left);
    }
    n
}

// The first place below k of router w on a path.
fn place(path: &[u8; 64], k: usize, w: usize) -> Option<usize>
    requires { k ≤ 64 }
    ensures { let first = seek (λ i. flag (eqb (get_or path.now i 0) w)) k in
        MatchOption result (k ≡ first) (λ place. (place < k) × (place ≡ first)) }
{
    path[..k].iter().position(|v| wide(*v) == w)
}

// A part of a path: from a place up to before another.
#[derive(Clone, Copy)]
struct Repeated {
    from: usize,
    upto: usize,
}

// Follows the walk until it meets a router for the second time.
fn follow(rows: &[u64; 64], closed: &[u64; 64], n: usize, path: &mut [u8; 64]) -> Repeated
    requires { FollowAsked (bits rows.now) (bits closed.now) n path.old }
    ensures { Followed (trail (bits rows.now) (bits closed.now) n) n path.new result.from result.upto }
{
    let mut w = first_grouped(closed, n);
    let mut k = 0;
    loop {
        path[k] = w as u8;
        w = next_router(rows, closed, n, w);
        k += 1;
        if let Some(met) = place(path, k, w) {
            return Repeated { from: met, upto: k };
        }
    }
}

// Writes the cycle to the front of `out`, and returns its length.
pub fn cycle(rows: &[u64; 64], closed: &[u64; 64], n: usize, out: &mut [u8]) -> usize
    requires { CycleAsked (bits rows.now) (bits closed.now) n out.old }
    ensures count { result ≡ length (cycle (bits rows.now) n) }
    ensures written { out.new ≡ cycle (bits rows.now) n ++ drop result out.old }
{
    let mut path = [0u8; 64];
    let found = follow(rows, closed, n, &mut path);
    let count = found.upto - found.from;
    let part = &path[found.from..found.upto];
    out[..count].copy_from_slice(part);
    count
}
