//! Tests of the whole program over ports in memory: jobs with what they write, faults of ports, broken jobs with the rule and
//! the line that they are refused by, and the jobs of `examples/`.
#![tactic(auto)]

#[cfg(test)]
mod case;
#[cfg(test)]
mod examples;
#[cfg(test)]
mod lives;
#[cfg(test)]
mod parallel;
#[cfg(test)]
mod ports;
#[cfg(test)]
mod refusals;
#[cfg(test)]
mod rows;
#[cfg(test)]
mod served;
#[cfg(test)]
mod syntax;
#[cfg(test)]
mod verdict;
#[cfg(test)]
mod wholes;
