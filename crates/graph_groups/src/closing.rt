// The closure of a relation: who reaches whom.

ghost use Rattle.std.specs.Prelude.{◌≡◌, ℕ, ◌≤◌, ◌<◌, min, max};
ghost use Rattle.base.specs.Bits.{bit_n, bits};
ghost use Rattle.base.specs.Elimination.{through, Agree};
ghost use Rattle.graph_groups.specs.Closure.{reaches, closure, Spans};

use base::bits::bit;

// A row with what lies beyond router k, if it has k.
fn joined(own: u64, beyond: u64, k: usize) -> u64
    requires { k < 64 }
    ensures { (j : ℕ) → bit_n result j ≡ max (bit_n own j) (min (bit_n own k) (bit_n beyond j)) }
{
    if bit(own, k) == 1 {
        return own | beyond;
    }
    own
}

// Adds who reaches whom through router k: nothing, if k is related to none.
fn pass_through(rows: &mut [u64; 64], n: usize, k: usize)
    requires { (n ≤ 64) × (k < n) }
    ensures { Agree (bits rows.new) (through reaches (bits rows.old) k) n }
{
    let beyond = rows[k];
    if beyond == 0 {
        return;
    }
    for row in &mut rows[..n] {
        *row = joined(*row, beyond, k);
    }
}

// The routers that some router below n is related to.
fn related_to(rows: &[u64; 64], n: usize) -> u64
    requires { n ≤ 64 }
    ensures { Spans rows.now result n }
{
    let mut any = 0;
    for row in &rows[..n] {
        any |= *row;
    }
    any
}

// Turns a relation into its closure. Bits at or past n say nothing, before and after. No chain goes through a router that none is related
// to.
pub fn close(rows: &mut [u64; 64], n: usize)
    requires { n ≤ 64 }
    ensures { Agree (bits rows.new) (closure (bits rows.old) n) n }
{
    let inner = related_to(rows, n);
    for k in 0..n {
        if bit(inner, k) != 0 {
            pass_through(rows, n, k);
        }
    }
}
