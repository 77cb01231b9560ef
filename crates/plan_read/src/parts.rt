// The bodies of a plan that is not refused, by their entries' place in the table of contents.

ghost use Rattle.std.specs.Prelude.{◌<◌, get_or};
ghost use Rattle.base.specs.Bytes.{PartOf};
ghost use Rattle.plan_contents.specs.Contents.{contents_of, no_entry};
ghost use Rattle.plan_read.specs.Checked.{Accepted};

use crate::refusal::CheckedPlan;

pub fn part(plan: &[u8], checked: CheckedPlan, which: usize) -> &[u8]
    requires { Accepted plan.now checked × (which < 4) }
    ensures { PartOf plan.entry (get_or (contents_of plan.now) which no_entry).offset
        (get_or (contents_of plan.now) which no_entry).size result }
{
    let table = checked.table;
    plan_contents::entries::body_of(plan, table[which])
}
