// Tables of formulas with their rules. No table exists that is not in order: every number in its range, parts with lower
// numbers than their formula, and rules that name formulas which are not loose.
#![tactic(auto)]

pub mod building;
pub mod defects;
pub mod draft;
pub mod finished;
pub mod reading;
