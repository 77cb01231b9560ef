// Writing what a case got: its name, then words and numbers with a space before each, then the line's end.

use base::wide;
use std::io;

pub fn name(rt: &impl Print, text: &[u8]) -> io::Result<()> {
    rt.write_all(text)
}

pub fn word(rt: &impl Print, text: &[u8]) -> io::Result<()> {
    rt.write_all(b" ")?;
    rt.write_all(text)
}

pub fn number(rt: &impl Print, x: usize) -> io::Result<()> {
    print!(rt; " {x}")
}

// A number that may be below 0, with its sign.
pub fn signed(rt: &impl Print, x: i64) -> io::Result<()> {
    print!(rt; " {x}")
}

pub fn line_end(rt: &impl Print) -> io::Result<()> {
    rt.write_all(b"\n")
}

pub fn numbers(rt: &impl Print, bytes: &[u8]) -> io::Result<()> {
    for byte in bytes {
        number(rt, wide(*byte))?;
    }
    Ok(())
}

pub fn named_number(rt: &impl Print, text: &[u8], x: usize) -> io::Result<()> {
    word(rt, text)?;
    number(rt, x)
}

pub fn truth(rt: &impl Print, b: bool) -> io::Result<()> {
    word(rt, if b { b"yes" } else { b"no" })
}
