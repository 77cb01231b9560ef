// The plan that the cases are about, body by body: each is written after the one before, with its contents entry.

use crate::build::{self, PlanBytes};
use crate::script;

// The kind of the body that a word sets: `roles` and `peers` 1, `sessions` and `mesh` 2, `distances`, `zeros` and `again` 3, `lists`
// and `full` 4.
fn kind(word: u8) -> u8 {
    match word {
        b'r' | b'p' => 1,
        b's' | b'm' => 2,
        b'd' | b'z' | b'a' => 3,
        _ => 4,
    }
}

// The place of the routers.
const ROUTERS: usize = 26;

// The routers of these roles, and the plan's head. Returns the place after them.
fn routers(plan: &mut [u8], roles: &[usize]) -> usize {
    build::put_head(plan, roles.len());
    let mut bytes = PlanBytes { plan, at: ROUTERS };
    bytes.put_routers(roles);
    bytes.at
}

// So many reflectors, at most 65.
fn peers(plan: &mut [u8], n: usize) -> usize {
    match [1; 65].get(..n) {
        Some(roles) => routers(plan, roles),
        None => ROUTERS,
    }
}

// Another body, from `start` on. Returns the place after it.
fn body(word: u8, numbers: &[usize], plan: &mut [u8], start: usize) -> usize {
    let n = script::number(numbers, 0, 0);
    let mut bytes = PlanBytes { plan, at: start };
    match word {
        b'm' => bytes.put_all_pairs(n),
        b'd' => bytes.put_distances(numbers),
        b'z' => bytes.put_zeros(n),
        b'a' => bytes.put_again(n, script::from_second(numbers)),
        b'f' => bytes.put_full_lists(n, script::number(numbers, 1, 0)),
        _ => bytes.put_all(numbers),
    }
    bytes.at
}

// Writes the body that a word and its numbers say, and returns the plan's length up to its end.
pub fn set(word: u8, numbers: &[usize], plan: &mut [u8], length: usize) -> usize {
    let (start, stop) = match word {
        b'r' => (ROUTERS, routers(plan, numbers)),
        b'p' => (ROUTERS, peers(plan, script::number(numbers, 0, 0))),
        _ => (length, body(word, numbers, plan, length)),
    };
    build::put_entry(plan, kind(word), start, stop);
    stop
}
