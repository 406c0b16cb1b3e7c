// The live monitor over both growing records, with answers and refusals worked out by hand.
#![tactic(auto)]

#[cfg(test)]
mod answers_tests;
#[cfg(test)]
mod asks;
#[cfg(test)]
mod both;
#[cfg(test)]
mod limits_tests;
#[cfg(test)]
mod refusals_tests;
#[cfg(test)]
mod samples;
#[cfg(test)]
mod told_tests;
