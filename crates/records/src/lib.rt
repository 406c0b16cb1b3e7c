// Records of states: what every record answers, what a growing record accepts, and the records that come with the product.
#![tactic(auto)]

mod change;
pub mod change_record;
pub mod cut;
pub mod growing;
pub mod readable;
pub mod rows;
pub mod table;
