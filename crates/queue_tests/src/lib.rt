// Tests of the queue, in a crate of their own: a crate with tests is proved twice.
#![tactic(auto)]

#[cfg(test)]
mod edges;
#[cfg(test)]
mod marks_follow;
#[cfg(test)]
mod plain;
#[cfg(test)]
mod turns;
