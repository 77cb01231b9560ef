// Each call, and what it gave as words and numbers of a line: a refusal number, or the result; then every byte of the lent buffers.

use crate::text;
use base::wide;
use checker::compare::{CompareAnswer, Preferred};
use checker::grade::GradeAnswer;
use checker::relies::ReliesAnswer;
use checker::steady::SteadyAnswer;
use checker::verdict::VerdictAnswer;
use std::io;

pub fn check(rt: &impl Print, plan: &[u8]) -> io::Result<()> {
    text::number(rt, wide(checker::check(plan)))
}

// The refusal number, how many numbers are handed back, and these.
pub fn egress_list(rt: &impl Print, plan: &[u8], list: usize) -> io::Result<()> {
    text::number(rt, wide(checker::lists::egress_list_refusal(plan, list)))?;
    let numbers = checker::lists::egress_list(plan, list);
    text::number(rt, numbers.len())?;
    text::numbers(rt, numbers)
}

fn better(rt: &impl Print, preferred: Preferred) -> io::Result<()> {
    match preferred {
        Preferred::First => text::word(rt, b"first"),
        Preferred::Second => text::word(rt, b"second"),
        Preferred::Neither => text::word(rt, b"neither"),
    }
}

fn apart(rt: &impl Print, margin: Option<i64>) -> io::Result<()> {
    match margin {
        None => text::word(rt, b"none"),
        Some(difference) => text::signed(rt, difference),
    }
}

// Which is better, then the word `margin` and the margin.
fn compared(rt: &impl Print, preferred: Preferred, margin: Option<i64>) -> io::Result<()> {
    better(rt, preferred)?;
    text::word(rt, b"margin")?;
    apart(rt, margin)
}

// The flags count as yes if they are not 0.
pub fn compare(
    rt: &impl Print,
    plan: &[u8],
    router: usize,
    first: usize,
    second: usize,
    first_direct: usize,
    second_direct: usize,
) -> io::Result<()> {
    let first_told = first_direct != 0;
    let second_told = second_direct != 0;
    let answer = checker::compare::compare(plan, router, first, second, first_told, second_told);
    match answer {
        CompareAnswer::Refused(number) => text::number(rt, wide(number)),
        CompareAnswer::Compared(preferred, margin) => compared(rt, preferred, margin),
    }
}

pub fn relies(
    rt: &impl Print,
    plan: &[u8],
    list: usize,
    router: usize,
    other: usize,
) -> io::Result<()> {
    let answer = checker::relies::relies(plan, list, router, other);
    match answer {
        ReliesAnswer::Refused(number) => text::number(rt, wide(number)),
        ReliesAnswer::Yes => text::word(rt, b"yes"),
        ReliesAnswer::No => text::word(rt, b"no"),
    }
}

pub fn activate(
    rt: &impl Print,
    plan: &[u8],
    list: usize,
    router: usize,
    table: &mut [u8],
) -> io::Result<()> {
    text::number(
        rt,
        wide(checker::activate::activate(plan, list, router, table)),
    )?;
    text::word(rt, b"table")?;
    text::numbers(rt, table)
}

// The refusal number, the acts applied, the rounds, and whether the sequence is longer than the limit.
pub fn run(
    rt: &impl Print,
    plan: &[u8],
    list: usize,
    sequence: &[u8],
    limit: usize,
    table: &mut [u8],
) -> io::Result<()> {
    let answer = checker::run::run(plan, list, sequence, limit, table);
    text::number(rt, wide(answer.refused))?;
    text::number(rt, answer.applied)?;
    text::number(rt, answer.rounds)?;
    text::truth(rt, answer.exhausted)?;
    text::word(rt, b"table")?;
    text::numbers(rt, table)
}

fn verdict_answer(rt: &impl Print, answer: VerdictAnswer) -> io::Result<()> {
    match answer {
        VerdictAnswer::Refused(number) => text::number(rt, wide(number)),
        VerdictAnswer::Stable(highest) => text::named_number(rt, b"stable", highest),
        VerdictAnswer::Suspect(length) => text::named_number(rt, b"suspect", length),
    }
}

// A buffer's name and its bytes.
fn left(rt: &impl Print, name: &[u8], bytes: &[u8]) -> io::Result<()> {
    text::word(rt, name)?;
    text::numbers(rt, bytes)
}

fn buffers(
    rt: &impl Print,
    labels: &[u8],
    ranks: &[u8],
    table: &[u8],
    cycle: &[u8],
) -> io::Result<()> {
    left(rt, b"labels", labels)?;
    left(rt, b"ranks", ranks)?;
    left(rt, b"table", table)?;
    left(rt, b"cycle", cycle)
}

// The verdict, and what it left in the four buffers.
fn verdict_in(
    rt: &impl Print,
    plan: &[u8],
    list: usize,
    labels: &mut [u8],
    ranks: &mut [u8],
    table: &mut [u8],
    cycle: &mut [u8],
) -> io::Result<()> {
    verdict_answer(
        rt,
        checker::verdict::verdict(plan, list, labels, ranks, table, cycle),
    )?;
    buffers(rt, labels, ranks, table, cycle)
}

// The same with buffers of these lengths, at most 10, each byte 7 before.
pub fn verdict(
    rt: &impl Print,
    plan: &[u8],
    list: usize,
    labels: usize,
    ranks: usize,
    table: usize,
    cycle: usize,
) -> io::Result<()> {
    verdict_in(
        rt,
        plan,
        list,
        &mut [7u8; 10][..labels.min(10)],
        &mut [7u8; 10][..ranks.min(10)],
        &mut [7u8; 10][..table.min(10)],
        &mut [7u8; 10][..cycle.min(10)],
    )
}

fn steady_answer(rt: &impl Print, answer: SteadyAnswer) -> io::Result<()> {
    match answer {
        SteadyAnswer::Refused(number) => text::number(rt, wide(number)),
        SteadyAnswer::Listed(count) => text::named_number(rt, b"listed", count),
    }
}

// How many steady tables there are, and what the call left in the buffer.
fn steady_in(rt: &impl Print, plan: &[u8], list: usize, out: &mut [u8]) -> io::Result<()> {
    steady_answer(rt, checker::steady::steady(plan, list, out))?;
    left(rt, b"numbers", out)
}

// The same with a buffer of this length, at most 10, each byte 7 before.
pub fn steady(rt: &impl Print, plan: &[u8], list: usize, length: usize) -> io::Result<()> {
    steady_in(rt, plan, list, &mut [7u8; 10][..length.min(10)])
}

fn grade_answer(rt: &impl Print, answer: GradeAnswer) -> io::Result<()> {
    match answer {
        GradeAnswer::Refused(number) => text::number(rt, wide(number)),
        GradeAnswer::Graded(grade, rounds) => {
            text::named_number(rt, b"grade", grade as usize)?;
            text::named_number(rt, b"rounds", rounds)
        }
    }
}

// The grade, and the rounds within which the routers come to rest.
pub fn grade(rt: &impl Print, plan: &[u8], list: usize) -> io::Result<()> {
    grade_answer(rt, checker::grade::grade(plan, list))
}
