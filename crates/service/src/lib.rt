// What every service shares: its answers, the checks with which it begins, and the waits that end.
#![tactic(auto)]

pub mod answers;
pub mod checks;
pub mod ending;
