// The public calls for C and for other languages that call C: `include/rrp.h` says what each does. A slice is passed as a pointer and
// a length, a result variable as a pointer. Each returns the call's refusal number, and if that is not 0 it has written nothing.

#![tactic(auto)]

ghost use Rattle.std.specs.Prelude.{◌≡◌};
ghost use Rattle.base.specs.Lent.{lent};
ghost use Rattle.plan_rules.specs.Refusal.{plan_refusal};
ghost use Rattle.call_run.specs.Activate.{Activates};
ghost use Rattle.links_rules.specs.Distances.{DistancesCall};
ghost use Rattle.c_rules.specs.Exports.{SizeExport, ListExport, CompareExport, ReliesExport, ExplainExport};
ghost use Rattle.c_rules.specs.Exports.{VerdictExport, SteadyExport, HopSetExport, GradeExport, RunExport, WidenExport, NarrowExport, FiguresExport, EveryListExport};

#[unsafe(no_mangle)]
pub extern "C" fn rrp_check(plan: &[u8]) -> u8
    ensures { result ≡ plan_refusal plan.now }
{
    checker::check(plan)
}

#[unsafe(no_mangle)]
pub extern "C" fn rrp_size(plan: &[u8], routers: &mut u64, lists: &mut u64) -> u8
    ensures { SizeExport plan.now result (lent routers) (lent lists) }
{
    c_query::size(plan, routers, lists)
}

#[unsafe(no_mangle)]
pub extern "C" fn rrp_list(plan: &[u8], list: usize, start: &mut u64, count: &mut u64) -> u8
    ensures { ListExport plan.now list result (lent start) (lent count) }
{
    c_query::list(plan, list, start, count)
}

#[unsafe(no_mangle)]
pub extern "C" fn rrp_compare(
    plan: &[u8],
    router: usize,
    first: usize,
    second: usize,
    first_direct: u8,
    second_direct: u8,
    better: &mut u8,
    has_margin: &mut u8,
    margin: &mut i64,
) -> u8
    ensures { CompareExport plan.now router first first_direct second second_direct result
        (lent better) (lent has_margin) (lent margin) }
{
    c_query::compare(
        plan,
        router,
        first,
        second,
        first_direct,
        second_direct,
        better,
        has_margin,
        margin,
    )
}

#[unsafe(no_mangle)]
pub extern "C" fn rrp_relies(
    plan: &[u8],
    list: usize,
    router: usize,
    other: usize,
    relies: &mut u8,
) -> u8
    ensures { ReliesExport plan.now list router other result (lent relies) }
{
    c_query::relies(plan, list, router, other, relies)
}

#[unsafe(no_mangle)]
pub extern "C" fn rrp_explain(
    plan: &[u8],
    list: usize,
    router: usize,
    other: usize,
    relies: &mut u8,
    code: &mut u8,
    offer: &mut u64,
    has_own: &mut u8,
    own: &mut u64,
    margin: &mut i64,
) -> u8
    ensures { ExplainExport plan.now list router other result
        (lent relies) (lent code) (lent offer) (lent has_own) (lent own) (lent margin) }
{
    c_explain::explain(
        plan, list, router, other, relies, code, offer, has_own, own, margin,
    )
}

#[unsafe(no_mangle)]
pub extern "C" fn rrp_verdict(
    plan: &[u8],
    list: usize,
    labels: &mut [u8],
    ranks: &mut [u8],
    table: &mut [u8],
    cycle: &mut [u8],
    stable: &mut u8,
    size: &mut u64,
) -> u8
    ensures { VerdictExport plan.now list result
        (lent labels) (lent ranks) (lent table) (lent cycle) (lent stable) (lent size) }
{
    c_tables::verdict(plan, list, labels, ranks, table, cycle, stable, size)
}

#[unsafe(no_mangle)]
pub extern "C" fn rrp_steady(plan: &[u8], list: usize, out: &mut [u8], count: &mut u64) -> u8
    ensures { SteadyExport plan.now list result (lent out) (lent count) }
{
    c_tables::steady(plan, list, out, count)
}

#[unsafe(no_mangle)]
pub extern "C" fn rrp_hop_set(plan: &[u8], list: usize, set: &mut u64) -> u8
    ensures { HopSetExport plan.now list result (lent set) }
{
    c_query::hop_set(plan, list, set)
}

#[unsafe(no_mangle)]
pub extern "C" fn rrp_grade(plan: &[u8], list: usize, grade: &mut u8, rounds: &mut u64) -> u8
    ensures { GradeExport plan.now list result (lent grade) (lent rounds) }
{
    c_grade::grade(plan, list, grade, rounds)
}

#[unsafe(no_mangle)]
pub extern "C" fn rrp_figures(
    plan: &[u8],
    by_rank: &mut [u8],
    by_router: &mut [u8],
    stable: &mut u64,
    suspect: &mut u64,
    has_highest: &mut u8,
    highest: &mut u64,
) -> u8
    ensures { FiguresExport plan.now result (lent by_rank) (lent by_router)
        (lent stable) (lent suspect) (lent has_highest) (lent highest) }
{
    c_figures::figures(
        plan,
        by_rank,
        by_router,
        stable,
        suspect,
        has_highest,
        highest,
    )
}

#[unsafe(no_mangle)]
pub extern "C" fn rrp_every_list(
    plan: &[u8],
    answer: &mut u8,
    list: &mut [u8],
    count: &mut u64,
) -> u8
    ensures { EveryListExport plan.now result (lent answer) (lent list) (lent count) }
{
    c_everylist::every_list(plan, answer, list, count)
}

#[unsafe(no_mangle)]
pub extern "C" fn rrp_activate(plan: &[u8], list: usize, router: usize, table: &mut [u8]) -> u8
    ensures { Activates plan.now list router table.old result table.new }
{
    checker::activate::activate(plan, list, router, table)
}

#[unsafe(no_mangle)]
pub extern "C" fn rrp_run(
    plan: &[u8],
    list: usize,
    sequence: &[u8],
    limit: u64,
    table: &mut [u8],
    applied: &mut u64,
    rounds: &mut u64,
    exhausted: &mut u8,
) -> u8
    ensures { RunExport plan.now list sequence.now limit result
        (lent table) (lent applied) (lent rounds) (lent exhausted) }
{
    c_tables::run(
        plan, list, sequence, limit, table, applied, rounds, exhausted,
    )
}

#[unsafe(no_mangle)]
pub extern "C" fn rrp_distances(n: usize, links: &[u8], out: &mut [u8]) -> u8
    ensures { DistancesCall n links.now result out.old out.new }
{
    checker::distances(n, links, out)
}

#[unsafe(no_mangle)]
pub extern "C" fn rrp_widen(plan: &[u8], out: &mut [u8], length: &mut u64) -> u8
    ensures { WidenExport plan.now result (lent out) (lent length) }
{
    c_convert::widen(plan, out, length)
}

#[unsafe(no_mangle)]
pub extern "C" fn rrp_narrow(plan: &[u8], out: &mut [u8], length: &mut u64) -> u8
    ensures { NarrowExport plan.now result (lent out) (lent length) }
{
    c_convert::narrow(plan, out, length)
}
