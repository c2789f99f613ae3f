// Tests of the calls on a plan: worked plans, and every refusal.
#![tactic(auto)]

#[cfg(test)]
mod halls;
#[cfg(test)]
mod journals;
#[cfg(test)]
mod lent;
#[cfg(test)]
mod refusals;
#[cfg(test)]
mod sides;
#[cfg(test)]
mod worked;
