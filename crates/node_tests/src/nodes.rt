//! A node over inputs that are given to it by hand, most of which no run of a mesh comes to.

mod cases;
mod driver;
mod inputs;
