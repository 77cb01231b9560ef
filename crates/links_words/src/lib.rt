// A table of 64 words a router, and how its words are lowered to what goes through a router. 65,535 stands for that and for all above.

#![tactic(auto)]

ghost use Rattle.std.specs.Prelude.{◌≡◌, ◌+◌, ◌*◌, ◌≤◌, ◌<◌, min, length, set};
ghost use Rattle.links_words.specs.Lowered.{word_at, RowLowered, RowsLowered};

pub const FAR: u16 = 65535;

// Lowers row i, column j to a word that is less.
pub fn lower(words: &mut [u16], i: usize, j: usize, word: u16)
    requires { 64 * i + j < length words.old }
    ensures { words.new ≡ set words.old (64 * i + j) (min (word_at words.old i j) word) }
{
    let at = 64 * i + j;
    words[at] = words[at].min(word);
}

// Columns that hold those below n: sixteen words are lowered at once, and words past column n say nothing.
fn columns(n: usize) -> usize
    requires { n ≤ 64 }
    ensures { (n ≤ result) × (result ≤ 64) }
{
    n.div_ceil(16) * 16
}

// Lowers row i to what goes first to a router, by `first`, and from there on, by `beyond`.
fn lower_row(words: &mut [u16], m: usize, i: usize, first: u16, beyond: &[u16; 64])
    requires { (m ≤ 64) × (64 * i + m ≤ length words.old) }
    ensures { RowLowered first beyond.now words.old i m words.new }
{
    for j in 0..m {
        lower(words, i, j, first.saturating_add(beyond[j]));
    }
}

// Lowers every row to what goes through router k. A row with 65,535 at k stays as it is: no sum with that is less than a word.
pub fn pass_through(words: &mut [u16], n: usize, k: usize)
    requires { (n ≤ 64) × (k < n) × (64 * n ≤ length words.old) }
    ensures { RowsLowered n k words.old n words.new }
{
    let m = columns(n);
    // row k, to read from while the table changes
    let mut beyond = [0; 64];
    beyond.copy_from_slice(&words[64 * k..64 * k + 64]);
    for i in 0..n {
        let first = words[64 * i + k];
        if first != FAR {
            lower_row(words, m, i, first, &beyond);
        }
    }
}
