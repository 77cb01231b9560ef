// The lines of the script, one after the other. A line that starts with # says something to the reader; one that starts with > sets
// the plan or the table; any other that is not empty is a case.

ghost use Rattle.std.specs.Prelude.{◌≤◌, length};

use crate::build::{self, PlanBytes};
use crate::{calls, plans, script, text};
use std::io;

// The most bytes that a lent table has.
const TABLE_ROOM: usize = 16;

// The length of the plan, and that of the table.
#[derive(Clone, Copy)]
struct Lengths {
    plan: usize,
    table: usize,
}

// Writes numbers below 256 from a place on, and returns the place after them.
fn put_all(bytes: &mut [u8], at: usize, numbers: &[usize]) -> usize {
    let mut writer = PlanBytes { plan: bytes, at };
    writer.put_all(numbers);
    writer.at
}

// `sequence LIST LIMIT ACTS`: a run.
fn sequence(rt: &impl Print, numbers: &[usize], plan: &[u8], table: &mut [u8]) -> io::Result<()> {
    let mut acts = [0u8; script::ROOM];
    let count = put_all(&mut acts, 0, script::from_third(numbers));
    calls::run(
        rt,
        plan,
        script::number(numbers, 0, 0),
        script::part(&acts, 0, count),
        script::number(numbers, 1, 0),
        table,
    )
}

// `better ROUTER FIRST SECOND FLAGS`: a comparison; a flag of 0 says that the route was passed on, and where it is left out its own
// egress router told it.
fn better(rt: &impl Print, numbers: &[usize], plan: &[u8]) -> io::Result<()> {
    let first_direct = script::number(numbers, 3, 1);
    let second_direct = script::number(numbers, 4, 1);
    calls::compare(
        rt,
        plan,
        script::number(numbers, 0, 0),
        script::number(numbers, 1, 0),
        script::number(numbers, 2, 0),
        first_direct,
        second_direct,
    )
}

// `verdict LIST LENGTHS`: the lengths of the four buffers, 5, 5, 10 and 5 where they are left out; each byte is 7 before.
fn verdict(rt: &impl Print, numbers: &[usize], plan: &[u8]) -> io::Result<()> {
    let labels = script::number(numbers, 1, 5);
    let ranks = script::number(numbers, 2, 5);
    let table = script::number(numbers, 3, 10);
    let cycle = script::number(numbers, 4, 5);
    calls::verdict(
        rt,
        plan,
        script::number(numbers, 0, 0),
        labels,
        ranks,
        table,
        cycle,
    )
}

// `every`: every call on the plan, for list 0: the comparison and the reliance of two routers, an activation and a run of router 0.
fn every(rt: &impl Print, plan: &[u8], table: &mut [u8]) -> io::Result<()> {
    calls::check(rt, plan)?;
    calls::egress_list(rt, plan, 0)?;
    calls::compare(rt, plan, 0, 2, 3, 1, 1)?;
    calls::relies(rt, plan, 0, 0, 1)?;
    calls::activate(rt, plan, 0, 0, table)?;
    calls::run(rt, plan, 0, &[0], 1, table)?;
    calls::verdict(rt, plan, 0, 5, 5, 10, 5)?;
    calls::steady(rt, plan, 0, 5)
}

// A call, by the first letter of its word.
fn call(
    rt: &impl Print,
    word: u8,
    numbers: &[usize],
    plan: &[u8],
    table: &mut [u8],
) -> io::Result<()> {
    let first = script::number(numbers, 0, 0);
    let second = script::number(numbers, 1, 0);
    let third = script::number(numbers, 2, 0);
    match word {
        b'a' => calls::activate(rt, plan, first, second, table),
        b'b' => better(rt, numbers, plan),
        b'c' => calls::check(rt, plan),
        b'e' => every(rt, plan, table),
        b'g' => calls::grade(rt, plan, first),
        b'l' => calls::egress_list(rt, plan, first),
        b'n' => calls::steady(rt, plan, first, second),
        b'r' => calls::relies(rt, plan, first, second, third),
        b's' => sequence(rt, numbers, plan, table),
        b't' => text::number(rt, plan.len()),
        _ => verdict(rt, numbers, plan),
    }
}

// `put PLACE BYTES` and `upto LENGTH` change the plan for the rest of the line; any other word is a call. Returns the plan's length.
fn word(
    rt: &impl Print,
    word: u8,
    numbers: &[usize],
    plan: &mut [u8],
    length: usize,
    table: &mut [u8],
) -> io::Result<usize> {
    if word == b'u' {
        return Ok(script::number(numbers, 0, 0));
    }
    if word == b'p' {
        put_all(
            plan,
            script::number(numbers, 0, 0),
            script::from_second(numbers),
        );
        return Ok(length);
    }
    call(rt, word, numbers, script::part(plan, 0, length), table)?;
    Ok(length)
}

// The words of a case after its name, which ends at `start`.
fn words(
    rt: &impl Print,
    line: &[u8],
    start: usize,
    plan: &mut [u8],
    size: usize,
    table: &mut [u8],
) -> io::Result<()>
    requires { start ≤ length line.now }
{
    let mut numbers = [0usize; script::ROOM];
    let mut bytes = size;
    let mut at = start;
    while at < line.len() {
        let stop = script::until(line, at + 1, script::SPACE);
        let read = script::read_numbers(line, stop, &mut numbers);
        bytes = word(
            rt,
            script::byte(line, at + 1),
            read.given,
            plan,
            bytes,
            table,
        )?;
        at = read.stop;
    }
    Ok(())
}

// Copies bytes to a buffer's front.
fn copy(buffer: &mut [u8], bytes: &[u8]) {
    let mut writer = PlanBytes {
        plan: buffer,
        at: 0,
    };
    writer.put_bytes(bytes);
}

// A case: its name, and what its calls gave. They have copies of the plan and the table.
fn case(rt: &impl Print, line: &[u8], plan: &[u8], table: &[u8]) -> io::Result<()> {
    if TABLE_ROOM < table.len() {
        return Ok(());
    }
    let mut own_plan = [0u8; build::ROOM];
    let mut own_table = [0u8; TABLE_ROOM];
    copy(&mut own_plan, plan);
    copy(&mut own_table, table);
    let name = script::until(line, 0, script::SPACE);
    text::name(rt, script::part(line, 0, name))?;
    words(
        rt,
        line,
        name,
        &mut own_plan,
        plan.len(),
        &mut own_table[..table.len()],
    )?;
    text::line_end(rt)
}

// A line after >: `table BYTES`, or a body of the plan.
fn set(line: &[u8], plan: &mut [u8], table: &mut [u8], lengths: Lengths) -> Lengths
    requires { 2 ≤ length line.now }
{
    let mut numbers = [0usize; script::ROOM];
    let word = script::byte(line, 2);
    let read = script::read_numbers(line, script::until(line, 2, script::SPACE), &mut numbers);
    if word == b't' {
        return Lengths {
            plan: lengths.plan,
            table: put_all(table, 0, read.given),
        };
    }
    Lengths {
        plan: plans::set(word, read.given, plan, lengths.plan),
        table: lengths.table,
    }
}

fn line(
    rt: &impl Print,
    line: &[u8],
    plan: &mut [u8],
    table: &mut [u8],
    lengths: Lengths,
) -> io::Result<Lengths> {
    if line.len() < 2 {
        return Ok(lengths);
    }
    let first = script::byte(line, 0);
    if first == b'#' {
        return Ok(lengths);
    }
    if first == b'>' {
        return Ok(set(line, plan, table, lengths));
    }
    case(
        rt,
        line,
        script::part(plan, 0, lengths.plan),
        script::part(table, 0, lengths.table),
    )?;
    Ok(lengths)
}

fn lines(rt: &impl Print, input: &[u8], plan: &mut [u8], table: &mut [u8]) -> io::Result<()> {
    let mut lengths = Lengths { plan: 0, table: 0 };
    let mut at = 0;
    while at < input.len() {
        let stop = script::until(input, at, script::LINE_END);
        lengths = line(rt, script::part(input, at, stop), plan, table, lengths)?;
        if input.len() <= stop {
            return Ok(());
        }
        at = stop + 1;
    }
    Ok(())
}

// Every line of the script, from an empty plan and an empty table on.
pub fn all(rt: &impl Print, input: &[u8]) -> io::Result<()> {
    let mut plan = [0u8; build::ROOM];
    let mut table = [0u8; TABLE_ROOM];
    lines(rt, input, &mut plan, &mut table)
}
