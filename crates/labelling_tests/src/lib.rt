// Whole labelling on logs whose labels and refusals are worked out by hand.
#![tactic(auto)]

#[cfg(test)]
mod labels_tests;
#[cfg(test)]
mod logs;
#[cfg(test)]
mod refusals_tests;
