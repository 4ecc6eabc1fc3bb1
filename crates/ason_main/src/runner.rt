//! Runs a plan's script over a fleet of stations.

pub mod crew;
pub mod lines;
pub mod rounds;
pub mod run;
pub mod stops;
