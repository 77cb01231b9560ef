// Every public call. None has a `requires`: any bytes and numbers get a result or a refusal number.

#![tactic(auto)]

pub use call_compare::compare;
pub use call_convert::convert;
pub use call_distances::distances;
pub use call_everylist::every_list;
pub use call_explain::explain;
pub use call_figures::figures;
pub use call_grade::grade;
pub use call_hopset::hop_set;
pub use call_query::{check, lists, relies, size};
pub use call_run::{activate, run};
pub use call_steady::steady;
pub use call_verdict::verdict;
pub use figures_rules::report;
pub use net_grade::grades;
pub use route_explain_rules::explanation;
