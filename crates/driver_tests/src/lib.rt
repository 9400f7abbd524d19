// Examples of drivers, each proved safe and then run.
#![tactic(auto)]

#[cfg(test)]
mod asking;
#[cfg(test)]
mod refusals;
