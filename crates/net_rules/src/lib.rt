// A plan with one of its lists as the code holds it: the type, and in specs/ the instance that it denotes and that of a plan. No code.

#![tactic(auto)]

// The byte that stands for no router.
pub const NO_ROUTER: u8 = 255;

// Bit v of a word stands for router v; a distance has `width` bytes.
#[derive(Clone, Copy)]
pub struct Network {
    pub n: usize,
    pub width: usize,
    pub reflectors: u64,
    pub skips: u64,
    pub hop: u64,
    pub listed: u64,
}
