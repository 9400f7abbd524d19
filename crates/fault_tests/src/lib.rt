// Examples of the fault layer, each proved safe and then run.
#![tactic(auto)]

#[cfg(test)]
mod failures;
