// A plan that is not refused, with distances of another width: an RRP2 plan of an RRP1 plan, and back.

#![tactic(auto)]

mod contents;
mod distances;

ghost use Rattle.std.specs.Prelude.{◌≡◌, ◌++◌, ◌+◌, ◌≤◌, length, drop};
ghost use Rattle.base.specs.Buffer.{written};
ghost use Rattle.plan_rules.specs.Distances.{TwoOrFour};
ghost use Rattle.plan_rules.specs.Converted.{converted};
ghost use Rattle.plan_read.specs.Checked.{Accepted};

pub use distances::distances_fit;
use plan_contents::entries::{DISTANCES, LISTS};
use plan_read::parts;
use plan_read::refusal::CheckedPlan;

// How long the result is.
pub fn converted_length(plan: &[u8], checked: CheckedPlan, to: usize) -> usize
    requires { Accepted plan.now checked × TwoOrFour to }
    ensures { result ≡ length (converted to plan.now) }
{
    let n = base::wide(checked.n);
    let pairs = n * n;
    plan.len() + to * pairs - base::wide(checked.width) * pairs
}

// Copies bytes to the buffer from `at` on. It is a loop, as that becomes a call of memcpy: `base::write_bytes`, by the library's
// `copy_from_slice`, becomes one of memmove, which the library for C must not need.
fn copy_bytes(out: &mut [u8], at: usize, bytes: &[u8])
    requires { at + length bytes.now ≤ length out.old }
    ensures { out.new ≡ written out.old at bytes.now }
{
    for i in 0..bytes.len() {
        out[at + i] = bytes[i];
    }
}

// Writes the result. Routers and sessions lie beside each other and are copied at once.
pub fn convert(plan: &[u8], checked: CheckedPlan, to: usize, out: &mut [u8])
    requires { Accepted plan.now checked × TwoOrFour to × (length (converted to plan.now) ≤ length out.old) }
    ensures { out.new ≡ converted to plan.now
        ++ drop (length (converted to plan.now)) out.old }
{
    let table = contents::result_contents(checked, to);
    contents::write_front(out, to, checked.n, table);
    let distances_entry = table[DISTANCES];
    let start = distances_entry.offset as usize;
    copy_bytes(out, 26, &plan[26..start]);
    distances::write_body(plan, checked, to, out, start);
    let lists = parts::part(plan, checked, LISTS);
    let lists_entry = table[LISTS];
    copy_bytes(out, lists_entry.offset as usize, lists);
}
