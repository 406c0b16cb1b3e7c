// Texts, good and bad, held against what was worked out by hand.
#![tactic(auto)]

#[cfg(test)]
mod asks;
#[cfg(test)]
mod fields_read;
#[cfg(test)]
mod limits;
#[cfg(test)]
mod records_read;
#[cfg(test)]
mod rules_read;
#[cfg(test)]
mod rules_refused;
#[cfg(test)]
mod tables_made;
#[cfg(test)]
mod traces_read;
#[cfg(test)]
mod words_told;
