// Single bits of a word.

ghost use Rattle.std.specs.Prelude.{◌≡◌, cond, ℕ, suc, ◌-◌, ◌<◌, ◌^◌, min, eqb};
ghost use Rattle.std.specs.Int.Bits.{bit_or};
ghost use Rattle.base.specs.Bits.{bit_n, with_bit};
ghost use Rattle.base.specs.BitWalk.{from_bit, LowestBit};

// Bit j of x.
pub fn bit(x: u64, j: usize) -> u64
    requires { j < 64 }
    ensures { result ≡ bit_n x j }
{
    (x >> j) % 2
}

// Whether bit j of x is set.
pub fn has_bit(x: u64, j: usize) -> bool
    requires { j < 64 }
    ensures { result ≡ eqb (bit_n x j) 1 }
{
    (x >> j) % 2 == 1
}

// x with bit j set.
pub fn with_bit(x: u64, j: usize) -> u64
    requires { j < 64 }
    ensures { result ≡ bit_or x (2 ^ j) }
{
    x | (1 << j)
}

// .. if that is asked for.
pub fn with_bit_if(x: u64, j: usize, asked: bool) -> u64
    requires { j < 64 }
    ensures { result ≡ cond asked (bit_or x (2 ^ j)) x }
{
    if asked {
        return with_bit(x, j);
    }
    x
}

// Sets bit j of row i.
pub fn set_bit(rows: &mut [u64; 64], i: usize, j: usize)
    requires { (i < 64) × (j < 64) }
    ensures { rows.new ≡ with_bit rows.old i j }
{
    rows[i] = with_bit(rows[i], j);
}

// The bits of a that are not set in b.
pub fn without(a: u64, b: u64) -> u64
    ensures { (j : ℕ) → bit_n result j ≡ min (bit_n a j) (1 - bit_n b j) }
{
    a ^ (a & b)
}

// The lowest set bit of x.
pub fn lowest_bit(x: u64) -> usize
    requires { 0 < x }
    ensures { LowestBit x result × (result < 64) }
{
    u64::trailing_zeros(x) as usize
}

// x without its lowest set bit.
pub fn without_lowest(x: u64) -> u64
    requires { 0 < x }
    ensures { (result < x) × ((v : ℕ) → LowestBit x v → result ≡ from_bit x (suc v)) }
{
    x & (x - 1)
}
