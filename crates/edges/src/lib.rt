// Tests of the scales and the networks at the edges of their rules.
#![tactic(auto)]

#[cfg(test)]
mod grades;
#[cfg(test)]
mod minutes;
#[cfg(test)]
mod networks;
#[cfg(test)]
mod refusals;
#[cfg(test)]
mod tables;
