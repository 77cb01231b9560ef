// The cases of the rules that no theorem states, by the public calls: each line of the output is a case's name and what the calls
// gave. The cases are the text on standard input (the file `stdin`), which says what each is about; the second checker of
// tests/second gives the same lines.

#![tactic(auto)]

mod build;
mod calls;
mod cases;
mod plans;
mod script;
mod text;

use std::io;

fn main(rt: HostRuntime) -> io::Result<()> {
    let mut input = [0u8; 65536];
    let size = text_input::read_full(&mut rt.stdin(), &mut input)?;
    cases::all(&rt, &input[..size])
}
