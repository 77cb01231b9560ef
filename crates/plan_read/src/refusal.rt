// The rows of the refusal table that a plan has, in order: 1, 2, 3, 4, 5, 13, 6, 7.

ghost use Rattle.std.specs.Prelude.{◌≡◌, true, ◌≤◌, length};
ghost use Rattle.plan_contents.specs.Contents.{contents_ok};
ghost use Rattle.plan_rules.specs.Distances.{TwoOrFour};
ghost use Rattle.plan_rules.specs.Refusal.{body_checks, plan_refusal};
ghost use Rattle.plan_read.specs.Checked.{Checked};

use plan_contents::entries::Entry;
use plan_contents::{entries, header};

// Rows 4, 5, 13, 6 and 7: each body is passed to its reader as a part of the plan.
fn bodies_refusal(plan: &[u8], table: [Entry; 4], width: u8, n: u8) -> u8
    requires { (n ≤ 64) × TwoOrFour width × (contents_ok table width n (length plan.now) ≡ true) }
    ensures { result ≡ body_checks plan.now table width n 0 }
{
    let routers = entries::body_of(plan, table[entries::ROUTERS]);
    if !plan_routers::routers_ok(routers, n as usize) {
        return 4;
    }
    let sessions = entries::body_of(plan, table[entries::SESSIONS]);
    let answers = plan_sessions::answers(routers, sessions, n as usize);
    if !answers.ordered {
        return 5;
    }
    if !answers.few {
        return 13;
    }
    let distances = entries::body_of(plan, table[entries::DISTANCES]);
    if !plan_distances::distances_ok(distances, width as usize, n as usize) {
        return 6;
    }
    let lists = entries::body_of(plan, table[entries::LISTS]);
    if !plan_lists::lists_ok(lists, n) {
        return 7;
    }
    0
}

pub fn refusal(plan: &[u8]) -> u8
    ensures { result ≡ plan_refusal plan.now }
{
    if !plan_contents::header::header_ok(plan) {
        return 1;
    }
    let n = plan[header::ROUTER_COUNT];
    if !plan_contents::header::router_count_ok(n) {
        return 2;
    }
    let width = header::width_of(plan[header::MARK]);
    let table = entries::read_contents(plan);
    if !entries::contents_ok(table, width as usize, n as usize, plan.len()) {
        return 3;
    }
    bodies_refusal(plan, table, width, n)
}

// What a check of a plan hands on: the plan's refusal number; beside 0, n, m, the bytes of a distance and the table of contents.
#[derive(Clone, Copy)]
pub struct CheckedPlan {
    pub refused: u8,
    pub n: u8,
    pub m: u8,
    pub width: u8,
    pub table: [Entry; 4],
}

// A refused plan has zeros beside its number.
pub fn refused(number: u8) -> CheckedPlan
    ensures { result.refused ≡ number }
{
    let none = Entry {
        kind: 0,
        offset: 0,
        size: 0,
    };
    let table = [none; 4];
    CheckedPlan {
        refused: number,
        n: 0,
        m: 0,
        width: 0,
        table,
    }
}

// Checks a plan and hands on what its readers need, so that none of them reads the contents again. What `refusal` read is
// not kept for that: it would slow the loops of the checks.
pub fn check(plan: &[u8]) -> CheckedPlan
    ensures { Checked plan.now result }
{
    let number = refusal(plan);
    if number != 0 {
        return refused(number);
    }
    let table = entries::read_contents(plan);
    let lists = entries::body_of(plan, table[entries::LISTS]);
    CheckedPlan {
        refused: 0,
        n: plan[header::ROUTER_COUNT],
        m: lists[0],
        width: header::width_of(plan[header::MARK]),
        table,
    }
}
