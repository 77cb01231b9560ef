// The size of a plan: how many routers and how many egress lists it has.

ghost use Rattle.call_query.specs.Size.{Sizes};

// Its refusal number, 0 for none; the number of routers, and the number of lists.
#[derive(Clone, Copy)]
pub struct SizeAnswer {
    pub refused: u8,
    pub routers: usize,
    pub lists: usize,
}

// The number of a plan's routers and of its lists.
pub fn size(plan: &[u8]) -> SizeAnswer
    ensures { Sizes plan.now result }
{
    let checked = plan_read::refusal::check(plan);
    if checked.refused != 0 {
        return SizeAnswer {
            refused: checked.refused,
            routers: 0,
            lists: 0,
        };
    }
    SizeAnswer {
        refused: 0,
        routers: checked.n as usize,
        lists: checked.m as usize,
    }
}
