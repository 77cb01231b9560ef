// The first 26 bytes of a converted plan: the mark, the number of routers and the table of contents.

ghost use Rattle.std.specs.Prelude.{◌≡◌, [], ◌∷◌, ◌++◌, ◌+◌, ◌*◌, ◌≤◌, ◌<◌, length, get_or};
ghost use Rattle.base.specs.Buffer.{written};
ghost use Rattle.base.specs.Tab.{joined};
ghost use Rattle.plan_contents.specs.Contents.{no_entry, distances_entry};
ghost use Rattle.plan_rules.specs.Converted.{mark_of, entry_bytes};
ghost use Rattle.plan_convert.specs.Result.{result_contents};

use plan_contents::entries::{DISTANCES, Entry, LISTS, ROUTERS, SESSIONS};
use plan_contents::header;
use plan_read::refusal::CheckedPlan;

// The mark of plans with distances of so many bytes.
fn mark_of(to: usize) -> u8
    ensures { result ≡ mark_of to }
{
    if to == 4 {
        return header::WIDE;
    }
    header::NARROW
}

// The table of contents of the result.
pub fn result_contents(checked: CheckedPlan, to: usize) -> [Entry; 4]
    requires { (distances_entry checked.table).offset + to * (checked.n * checked.n) < 65536 }
    ensures { result ≡ result_contents to checked.n checked.table }
{
    let table = checked.table;
    let n = base::wide(checked.n);
    let distances = table[DISTANCES];
    let lists = table[LISTS];
    let start = distances.offset;
    let size = (to * (n * n)) as u16;
    [
        table[ROUTERS],
        table[SESSIONS],
        Entry {
            kind: 3,
            offset: start,
            size,
        },
        Entry {
            kind: 4,
            offset: start + size,
            size: lists.size,
        },
    ]
}

// Writes an entry from `at` on.
fn write_entry(out: &mut [u8], at: usize, e: Entry)
    requires { at + 5 ≤ length out.old }
    ensures { out.new ≡ written out.old at (entry_bytes e) }
{
    let offset = e.offset.to_le_bytes();
    let size = e.size.to_le_bytes();
    base::write_bytes(out, at, &[e.kind, offset[0], offset[1], size[0], size[1]]);
}

// Writes bytes 6 to 25.
fn write_contents(out: &mut [u8], table: [Entry; 4])
    requires { 26 ≤ length out.old }
    ensures { out.new ≡ written out.old 6 (joined (λ k. entry_bytes (get_or table k no_entry)) 4) }
{
    for (which, entry) in table.iter().enumerate() {
        write_entry(out, 6 + 5 * which, *entry);
    }
}

// Writes bytes 0 to 25.
pub fn write_front(out: &mut [u8], to: usize, n: u8, table: [Entry; 4])
    requires { 26 ≤ length out.old }
    ensures { out.new ≡ written out.old 0 ((82 ∷ 82 ∷ 80 ∷ mark_of to ∷ n ∷ 4 ∷ [])
        ++ joined (λ k. entry_bytes (get_or table k no_entry)) 4) }
{
    out[0] = b'R';
    out[1] = b'R';
    out[2] = b'P';
    out[3] = mark_of(to);
    out[4] = n;
    out[5] = 4;
    write_contents(out, table);
}
