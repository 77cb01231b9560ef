// Groups of a closed relation.

ghost use Rattle.std.specs.Prelude.{◌≡◌, ◌++◌, ◌≤◌, ◌<◌, length, drop};
ghost use Rattle.base.specs.Tab.{tab};
ghost use Rattle.base.specs.Bits.{bits};
ghost use Rattle.graph_groups.specs.Closure.{Returns, AllReturn};
ghost use Rattle.graph_groups.specs.Groups.{together, label, stable};

use base::bits::bit;

// Whether i and j share a group: 1 or 0.
pub fn share(closed: &[u64; 64], i: usize, j: usize) -> u64
    requires { (i < 64) × (j < 64) }
    ensures { result ≡ together (bits closed.now) i j }
{
    if i == j {
        return 1;
    }
    if bit(closed[i], j) == 0 {
        return 0;
    }
    bit(closed[j], i)
}

// The label of the group of i. A router that does not reach itself shares its group with no other.
fn label_of(closed: &[u64; 64], i: usize) -> usize
    requires { (i < 64) × Returns (bits closed.now) i i }
    ensures { result ≡ label (bits closed.now) i }
{
    if bit(closed[i], i) == 0 {
        return i;
    }
    (0..i).find(|j| 0 < share(closed, i, *j)).unwrap_or(i)
}

// Writes the label of each router to the first n bytes of `out`.
pub fn labels(closed: &[u64; 64], n: usize, out: &mut [u8])
    requires { (n ≤ 64) × (n ≤ length out.old) × AllReturn (bits closed.now) n }
    ensures { out.new ≡ tab (label (bits closed.now)) n ++ drop n out.old }
{
    for i in 0..n {
        out[i] = label_of(closed, i) as u8;
    }
}

// Whether every group has one router.
pub fn is_stable(closed: &[u64; 64], n: usize) -> bool
    requires { (n ≤ 64) × AllReturn (bits closed.now) n }
    ensures { result ≡ stable (bits closed.now) n }
{
    (0..n).all(|i| label_of(closed, i) == i)
}
