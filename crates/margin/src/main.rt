// Prints the line of the three bytes and the plan on standard input, which crate `text_margin` lays out.

#![tactic(auto)]

use plan_contents::header::LARGEST_PLAN;
use std::io;
use text_lines::LINE_ROOM;

// One byte more than the three and the largest plan is read, so that a longer input is seen to be too long.
fn main(rt: HostRuntime) -> io::Result<()> {
    let mut input = [0u8; 3 + LARGEST_PLAN + 1];
    let size = text_input::read_full(&mut rt.stdin(), &mut input)?;
    let mut line = [0u8; LINE_ROOM];
    let length = text_margin::margin_text(&input[..size], &mut line);
    rt.write_all(&line[..length])
}
