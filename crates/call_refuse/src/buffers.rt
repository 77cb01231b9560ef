// The refusals of calls that are lent buffers or handed a table: rows 9 and 10, after row 8.

ghost use Rattle.std.specs.Prelude.{◌≡◌, List, ℕ, ◌*◌, ◌≤◌, ◌<◌};
ghost use Rattle.plan_read.specs.Checked.{Checked};
ghost use Rattle.net_rules.specs.Decoded.{decoded};
ghost use Rattle.call_rules.specs.Refusals.{buffers_ok, verdict_refusal, table_checks, figures_refusal, every_list_refusal};

use net_rules::Network;
use plan_read::refusal::CheckedPlan;

fn buffers_ok(n: usize, labels: &[u8], ranks: &[u8], table: &[u8], cycle: &[u8]) -> bool
    requires { n < 256 }
    ensures { result ≡ buffers_ok n labels.now ranks.now table.now cycle.now }
{
    if labels.len() < n {
        return false;
    }
    if ranks.len() < n {
        return false;
    }
    if table.len() < 2 * n {
        return false;
    }
    n <= cycle.len()
}

// Rows up to 9 of a verdict.
pub fn verdict_refusal(
    checked: CheckedPlan,
    list: usize,
    labels: &[u8],
    ranks: &[u8],
    table: &[u8],
    cycle: &[u8],
) -> u8
    ensures { (plan : List ℕ) → Checked plan checked → result ≡ verdict_refusal plan list
        labels.now ranks.now table.now cycle.now }
{
    let refused = crate::numbers::list_refusal(checked, list);
    if refused != 0 {
        return refused;
    }
    if !buffers_ok(checked.n as usize, labels, ranks, table, cycle) {
        return 9;
    }
    0
}

// Rows 9 and 10 of a call that takes a table, whatever the distances.
pub fn table_refusal(net: Network, rows: &[u64; 64], table: &[u8]) -> u8
    requires { net.n ≤ 64 }
    ensures { (distances : List ℕ) → result ≡ table_checks (decoded net rows.now distances) table.now }
{
    if table.len() < 2 * net.n {
        return 9;
    }
    if !net_tables::table_ok(net, rows, table) {
        return 10;
    }
    0
}

// Rows up to 9 of the figures over all lists, which are lent buffers for the counts by rank and by router.
pub fn figures_refusal(checked: CheckedPlan, ranks: &[u8], routers: &[u8]) -> u8
    ensures { (plan : List ℕ) → Checked plan checked
        → result ≡ figures_refusal plan ranks.now routers.now }
{
    if checked.refused != 0 {
        return checked.refused;
    }
    let n = checked.n as usize;
    if ranks.len() < n {
        return 9;
    }
    if routers.len() < n {
        return 9;
    }
    0
}

// Rows up to 9 of the call on every list, which is lent a buffer for a list.
pub fn every_list_refusal(checked: CheckedPlan, list: &[u8]) -> u8
    ensures { (plan : List ℕ) → Checked plan checked → result ≡ every_list_refusal plan list.now }
{
    if checked.refused != 0 {
        return checked.refused;
    }
    if list.len() < checked.n as usize {
        return 9;
    }
    0
}
