// Tests of plan files: the worked file, every fault in every part, sizes at their limits, and rows that are asked for.
#![tactic(auto)]

#[cfg(test)]
mod asking;
#[cfg(test)]
mod faults;
#[cfg(test)]
mod sizes;
#[cfg(test)]
mod sound;
#[cfg(test)]
mod worked;
