// The lines that the programs print: each is written at a text's end.

#![tactic(auto)]

ghost use Rattle.std.specs.Prelude.{◌∷◌, ◌++◌, ◌+◌, ◌≤◌, ◌<◌, length};
ghost use Rattle.text_fields.specs.Buffer.{Put};
ghost use Rattle.text_fields.specs.Fields.{decimal};
ghost use Rattle.text_lines.specs.Text.{line_room, head_line, refused_line, stable_line, suspect_line, margin_line, none_line};

use base::wide;
use text_fields::{LINE_END, Text};

// Room for any line, `line_room`.
pub const LINE_ROOM: usize = 272;

// The first line: the plan has n routers and m lists.
pub fn head_line(text: &mut Text, n: usize, m: usize)
    requires { (text.old.end + line_room ≤ length text.old.out.now) × (n < 1000) × (m < 1000) }
    ensures { Put line_room text.old (head_line n m) text.new }
{
    text.put_bytes(b"routers");
    text.put_next_number(n);
    text.put_next_bytes(b"lists");
    text.put_last_number(m);
}

// The single line of a refused plan.
pub fn refused_line(text: &mut Text, number: u8)
    requires { text.old.end + line_room ≤ length text.old.out.now }
    ensures { Put line_room text.old (refused_line number) text.new }
{
    text.put_bytes(b"refused");
    text.put_last_number(wide(number));
}

// The first two fields of a list's line: its number and its verdict.
fn put_verdict(text: &mut Text, list: usize, verdict: &[u8])
    requires { (text.old.end + 11 ≤ length text.old.out.now) × (list < 1000) × (length verdict.now ≤ 7) }
    ensures { Put 11 text.old (decimal list ++ (32 ∷ verdict.now)) text.new }
{
    text.put_number(list);
    text.put_next_bytes(verdict);
}

// The line of a stable list.
pub fn stable_line(text: &mut Text, list: usize, highest: usize)
    requires { (text.old.end + line_room ≤ length text.old.out.now) × (list < 1000) × (highest < 1000) }
    ensures { Put line_room text.old (stable_line list highest) text.new }
{
    put_verdict(text, list, b"stable");
    text.put_last_number(highest);
}

// The line of a suspect list.
pub fn suspect_line(text: &mut Text, list: usize, cycle: &[u8])
    requires { (text.old.end + line_room ≤ length text.old.out.now) × (list < 1000) × (length cycle.now ≤ 64) }
    ensures { Put line_room text.old (suspect_line list cycle.now) text.new }
{
    put_verdict(text, list, b"suspect");
    text.put_next_number(cycle.len());
    text.put_next_numbers(cycle);
    text.put_byte(LINE_END);
}

// The line of a margin.
pub fn margin_line(text: &mut Text, margin: i64)
    requires { text.old.end + line_room ≤ length text.old.out.now }
    ensures { Put line_room text.old (margin_line margin) text.new }
{
    text.put_signed(margin);
    text.put_byte(LINE_END);
}

// The line where there is no margin.
pub fn none_line(text: &mut Text)
    requires { text.old.end + line_room ≤ length text.old.out.now }
    ensures { Put line_room text.old none_line text.new }
{
    text.put_bytes(b"none");
    text.put_byte(LINE_END);
}
