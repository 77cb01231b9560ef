// The table of contents, read into four entries by value: refusal 3, and the bodies as parts of the plan.

ghost use Rattle.std.specs.Prelude.{◌≡◌, ◌+◌, ◌≤◌, eqb, length};
ghost use Rattle.base.specs.Bytes.{PartOf};
ghost use Rattle.plan_contents.specs.Contents.{entry_at, contents_of, end, kinds_ok, places_ok, sizes_ok, contents_ok};

// The place of each kind's entry in the table.
pub const ROUTERS: usize = 0;

pub const SESSIONS: usize = 1;

pub const DISTANCES: usize = 2;

pub const LISTS: usize = 3;

// "kind (1 byte), offset (2), length (2)"; the length is called size.
#[derive(Clone, Copy)]
pub struct Entry {
    pub kind: u8,
    pub offset: u16,
    pub size: u16,
}

fn read_entry(plan: &[u8], at: usize) -> Entry
    requires { at + 5 ≤ length plan.now }
    ensures { result ≡ entry_at plan.now at }
{
    Entry {
        kind: plan[at],
        offset: base::read2(plan, at + 1) as u16,
        size: base::read2(plan, at + 3) as u16,
    }
}

pub fn read_contents(plan: &[u8]) -> [Entry; 4]
    requires { 26 ≤ length plan.now }
    ensures { result ≡ contents_of plan.now }
{
    [
        read_entry(plan, 6),
        read_entry(plan, 11),
        read_entry(plan, 16),
        read_entry(plan, 21),
    ]
}

#[tactic(auto, unfolding(crate::specs::Contents::kinds_ok))]
fn kinds_ok(table: [Entry; 4]) -> bool
    ensures { result ≡ kinds_ok table }
{
    table[ROUTERS].kind == 1
        && table[SESSIONS].kind == 2
        && table[DISTANCES].kind == 3
        && table[LISTS].kind == 4
}

// Whether a body starts where the one before it ends.
fn follows(before: Entry, after: Entry) -> bool
    ensures { result ≡ eqb after.offset (end before) }
{
    after.offset as usize == before.offset as usize + before.size as usize
}

#[tactic(auto, unfolding(crate::specs::Contents::places_ok))]
fn places_ok(table: [Entry; 4], plan_length: usize) -> bool
    ensures { result ≡ places_ok table plan_length }
{
    let lists = table[LISTS];
    table[ROUTERS].offset == 26
        && follows(table[ROUTERS], table[SESSIONS])
        && follows(table[SESSIONS], table[DISTANCES])
        && follows(table[DISTANCES], lists)
        && lists.offset as usize + lists.size as usize == plan_length
}

#[tactic(auto, unfolding(crate::specs::Contents::sizes_ok))]
fn sizes_ok(table: [Entry; 4], width: usize, n: usize) -> bool
    requires { (width ≤ 4) × (n ≤ 64) }
    ensures { result ≡ sizes_ok table width n }
{
    table[ROUTERS].size as usize == 5 * n
        && table[SESSIONS].size.is_multiple_of(2)
        && table[DISTANCES].size as usize == width * (n * n)
}

#[tactic(auto, unfolding(crate::specs::Contents::contents_ok))]
pub fn contents_ok(table: [Entry; 4], width: usize, n: usize, plan_length: usize) -> bool
    requires { (width ≤ 4) × (n ≤ 64) }
    ensures { result ≡ contents_ok table width n plan_length }
{
    kinds_ok(table) && places_ok(table, plan_length) && sizes_ok(table, width, n)
}

// An entry's body, as a part of the plan itself.
pub fn body_of(plan: &[u8], e: Entry) -> &[u8]
    requires { end e ≤ length plan.now }
    ensures { PartOf plan.entry e.offset e.size result }
{
    let start = e.offset as usize;
    let stop = start + e.size as usize;
    &plan[start..stop]
}
