// Prints the text of the plan on standard input, which crate `text_verdict` lays out.

#![tactic(auto)]

use plan_contents::header::LARGEST_PLAN;
use std::io;
use text_verdict::TEXT_ROOM;

// One byte more than the largest plan is read, so that a longer input is seen to be too long.
fn main(rt: HostRuntime) -> io::Result<()> {
    let mut plan = [0u8; LARGEST_PLAN + 1];
    let size = text_input::read_full(&mut rt.stdin(), &mut plan)?;
    let mut text = [0u8; TEXT_ROOM];
    let length = text_verdict::plan_text(&plan[..size], &mut text);
    rt.write_all(&text[..length])
}
