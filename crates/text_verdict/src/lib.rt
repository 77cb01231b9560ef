// The text that the verdict program prints of a plan.

#![tactic(auto)]

ghost use Rattle.std.specs.Prelude.{◌+◌, ◌*◌, ◌≤◌, ◌<◌, length};
ghost use Rattle.plan_rules.specs.EgressLists.{list_count};
ghost use Rattle.plan_read.specs.Checked.{Accepted};
ghost use Rattle.text_fields.specs.Buffer.{Put, AtFront};
ghost use Rattle.text_lines.specs.Text.{line_room};
ghost use Rattle.text_verdict_rules.specs.Listing.{list_line, list_lines, plan_text, text_room};
ghost use Rattle.text_verdict.specs.Found.{found_line, Printable};

use net_verdict::Assessment;
use plan_contents::entries::DISTANCES;
use plan_read::refusal::CheckedPlan;
use text_fields::Text;
use text_lines::LINE_ROOM;

// Room for any text, `text_room`: the first line and the lines of 64 lists.
pub const TEXT_ROOM: usize = 65 * LINE_ROOM;

// Writes the line of a list for which `found` was found; `cycle` is the buffer that was lent for the cycle.
fn found_line(text: &mut Text, list: usize, found: Assessment, cycle: &[u8])
    requires { (text.old.end + line_room ≤ length text.old.out.now) × Printable found list cycle.now }
    ensures { Put line_room text.old (found_line found list cycle.now) text.new }
{
    match found {
        Assessment::Stable(highest) => text_lines::stable_line(text, list, highest),
        Assessment::Suspect(count) => text_lines::suspect_line(text, list, &cycle[..count]),
    }
}

// Writes the line of a list.
fn list_line(text: &mut Text, plan: &[u8], checked: CheckedPlan, list: usize)
    requires { (text.old.end + line_room ≤ length text.old.out.now) × Accepted plan.now checked × (list < list_count plan.now) }
    ensures { Put line_room text.old (list_line plan.now list) text.new }
{
    let mut rows = [0u64; 64];
    let net = net_read::open_plan(plan, checked, list, &mut rows);
    let distances = plan_read::parts::part(plan, checked, DISTANCES);
    let mut labels = [0u8; 64];
    let mut ranks = [0u8; 64];
    let mut table = [0u8; 128];
    let mut cycle = [0u8; 64];
    let found = net_verdict::assess(
        net,
        &rows,
        distances,
        &mut labels,
        &mut ranks,
        &mut table,
        &mut cycle,
    );
    found_line(text, list, found, &cycle);
}

// Writes the lines of the first m lists, in order.
fn list_lines(text: &mut Text, plan: &[u8], checked: CheckedPlan, m: usize)
    requires { (text.old.end + line_room * m ≤ length text.old.out.now) × Accepted plan.now checked × (m ≤ list_count plan.now) }
    ensures { Put (line_room * m) text.old (list_lines plan.now m) text.new }
{
    for list in 0..m {
        list_line(text, plan, checked, list);
    }
}

// Writes the whole text of a plan to the front of a buffer, and returns the text's length.
pub fn plan_text(plan: &[u8], out: &mut [u8]) -> usize
    requires { text_room ≤ length out.old }
    ensures { AtFront out.old (plan_text plan.now) out.new result }
{
    let checked = plan_read::refusal::check(plan);
    let refused = checked.refused;
    let mut text = Text::new(out);
    if refused != 0 {
        text_lines::refused_line(&mut text, refused);
        return text.end;
    }
    let m = checked.m as usize;
    text_lines::head_line(&mut text, checked.n as usize, m);
    list_lines(&mut text, plan, checked, m);
    text.end
}
