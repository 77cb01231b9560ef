// What the report over all lists of a plan returns, beside its counts by rank and by router.

// How many lists are stable and how many suspect, and the highest rank among the stable ones, `None` if there is none.
#[derive(Clone, Copy)]
pub struct Figures {
    pub stable: usize,
    pub suspect: usize,
    pub highest: Option<usize>,
}
