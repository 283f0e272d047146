//! Tests of the libraries below the world, through their public calls: of what no clause states.

mod bits;
mod hash;
mod line;
mod links;
mod marker;
mod table;
