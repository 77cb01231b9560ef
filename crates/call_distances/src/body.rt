// A kind 3 body from the table of words.

ghost use Rattle.std.specs.Prelude.{◌≡◌, ◌++◌, ◌+◌, ◌*◌, ◌≤◌, ◌<◌, length, take, drop};
ghost use Rattle.plan_rules.specs.Distances.{row_of, body_of};
ghost use Rattle.links_words.specs.Lowered.{word_at};

// Writes row u from `at` on, each word in two bytes, low byte first.
fn write_row(words: &[u16], n: usize, u: usize, out: &mut [u8], at: usize)
    requires { (n ≤ 64) × (u < n) × (64 * n ≤ length words.now) × (at + 2 * n ≤ length out.old) }
    ensures { out.new ≡ take at out.old ++ row_of 2 (word_at words.now u) n
        ++ drop (at + 2 * n) out.old }
{
    for e in 0..n {
        let start = at + 2 * e;
        out[start..start + 2].copy_from_slice(&words[64 * u + e].to_le_bytes());
    }
}

// Writes all rows, one after the other.
pub fn write_body(words: &[u16], n: usize, out: &mut [u8])
    requires { (n ≤ 64) × (64 * n ≤ length words.now) × (2 * (n * n) ≤ length out.old) }
    ensures { out.new ≡ body_of 2 (word_at words.now) n ++ drop (2 * (n * n)) out.old }
{
    for row in 0..n {
        write_row(words, n, row, out, 2 * n * row);
    }
}
