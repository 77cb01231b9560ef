// The numbers of a set, written two bytes each.

ghost use Rattle.std.specs.Prelude.{◌≡◌, ◌++◌, ◌+◌, ◌*◌, ◌≤◌, ◌<◌, length, drop};
ghost use Rattle.base.specs.Buffer.{written};
ghost use Rattle.base.specs.Bytes.{bytes_of};
ghost use Rattle.steady_rules.specs.Numbers.{numbers_where};
ghost use Rattle.net_steady.specs.Building.{in_set};
ghost use Rattle.call_steady.specs.Steady.{number_bytes};

// Writes a number, low byte first.
fn write_number(out: &mut [u8], at: usize, x: usize)
    requires { at + 2 ≤ length out.old }
    ensures { out.new ≡ written out.old at (bytes_of 2 x) }
{
    let bytes = x.to_le_bytes();
    out[at] = bytes[0];
    out[at + 1] = bytes[1];
}

// Writes the numbers of a set that holds `count` of them, rising.
pub fn write_numbers(set: &[u64; 64], count: usize, out: &mut [u8])
    requires { (count ≡ length (numbers_where (in_set set.now) 4096)) × (2 * count ≤ length out.old) }
    ensures { out.new ≡ number_bytes (numbers_where (in_set set.now) 4096)
        ++ drop (2 * count) out.old }
{
    let mut i = 0;
    for x in 0..4096 {
        if i == count {
            return;
        }
        if net_steady::listing::has_number(set, x) {
            write_number(out, 2 * i, x);
            i += 1;
        }
    }
}
