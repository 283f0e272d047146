//! Tests of a world, of the libraries below it, and of other hosts that run beside it. They have a crate of their own: a crate with tests is proved twice, and each
//! crate of tests takes a minute or two to load its dependencies.
#![tactic(auto)]

#[cfg(test)]
mod equal;
#[cfg(test)]
mod hosts;
#[cfg(test)]
mod parts;
#[cfg(test)]
mod world;
