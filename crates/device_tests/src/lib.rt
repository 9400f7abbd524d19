// Examples of the three classes and their devices, each proved safe and then run.
#![tactic(auto)]

#[cfg(test)]
mod blocks;
#[cfg(test)]
mod classes;
#[cfg(test)]
mod commands;
#[cfg(test)]
mod frames;
#[cfg(test)]
mod refusals;
#[cfg(test)]
mod samples;
