// The six patterns of linear temporal logic, each with its path rule and its watch.
// Each file has the same members in the same order. What differs, rule, step, tint and law, is all that each has.
#![tactic(auto)]

pub mod always;
pub mod any;
pub mod conditional_stable;
pub mod eventual;
pub mod kind;
pub mod leads_to;
pub mod proposition;
pub mod until;
pub mod until_stable;
pub mod watch;
