// Whether the routers of a plan with one of its lists come to rest, whatever the order in which they act.

ghost use Rattle.std.specs.Prelude.{◌≡◌};
ghost use Rattle.net_rules.specs.Decoded.{instance};
ghost use Rattle.net_rules.specs.WellFormed.{WellFormed};
ghost use Rattle.call_grade.specs.Grade.{graded_for, GradeCall};

use net_grade::grades::Grade;
use net_rules::Network;
use plan_contents::entries::DISTANCES;

// Its refusal number; or the grade, and for the first grade a number of rounds within which the routers come to rest, else 0.
#[derive(Clone, Copy)]
pub enum GradeAnswer {
    Refused(u8),
    Graded(Grade, usize),
}

// Row 15, or the grade, over a network read from a plan.
fn grade_list(net: Network, rows: &[u64; 64], distances: &[u8]) -> GradeAnswer
    requires { WellFormed net rows.now distances.now }
    ensures { result ≡ graded_for (instance net rows.entry distances.entry) }
{
    match net_grade::grade_network(net, rows, distances) {
        Some(found) => GradeAnswer::Graded(found.grade, found.rounds),
        None => GradeAnswer::Refused(15),
    }
}

// The grade of the list, and for the first grade a number of rounds.
pub fn grade(plan: &[u8], list: usize) -> GradeAnswer
    ensures { GradeCall plan.now list result }
{
    let checked = plan_read::refusal::check(plan);
    let refused = call_refuse::numbers::list_refusal(checked, list);
    if refused != 0 {
        return GradeAnswer::Refused(refused);
    }
    let mut rows = [0u64; 64];
    let net = net_read::open_plan(plan, checked, list, &mut rows);
    let distances = plan_read::parts::part(plan, checked, DISTANCES);
    grade_list(net, &rows, distances)
}
