// What several crates need and no paper names.

#![tactic(auto)]

pub mod bits;

ghost use Rattle.std.specs.Prelude.{◌≡◌, ◌+◌, ◌<◌, ◌≤◌, length};
ghost use Rattle.base.specs.Buffer.{written};
ghost use Rattle.base.specs.Bytes.{little_endian};

// A byte as a count or an index.
pub fn wide(x: u8) -> usize
    ensures { (result ≡ x) × (result < 256) }
{
    x as usize
}

// The two-byte number at `at`.
pub fn read2(s: &[u8], at: usize) -> usize
    requires { at + 2 ≤ length s.now }
    ensures { (result ≡ little_endian 2 s.now at) × (result < 65536) }
{
    u16::from_le_bytes([s[at], s[at + 1]]) as usize
}

// The four-byte number at `at`.
pub fn read4(s: &[u8], at: usize) -> usize
    requires { at + 4 ≤ length s.now }
    ensures { (result ≡ little_endian 4 s.now at) × (result < 4294967296) }
{
    u32::from_le_bytes([s[at], s[at + 1], s[at + 2], s[at + 3]]) as usize
}

// Writes bytes from `at` on.
pub fn write_bytes(out: &mut [u8], at: usize, bytes: &[u8])
    requires { at + length bytes.now ≤ length out.old }
    ensures { out.new ≡ written out.old at bytes.now }
{
    out[at..at + bytes.len()].copy_from_slice(bytes);
}
