//! Tests of the service.
#![tactic(auto)]

#[cfg(test)]
mod service;
