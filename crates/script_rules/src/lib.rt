//! What a script makes of the nodes of a network, stage by stage, and what it prints, on any number of workers.
//!
//! A stage (`Stage`) is a record of what the nodes did, with the lines so far that name a frame. It tells at whose
//! limit the run is stopped, if it is.
//!
//! - `LineMakes`: the stages that a line makes of one. A post, a line that names a frame, and noise make one. A settle
//!   makes rounds until nothing waits, at most so many (`Settles`). A wait makes just so many (`WaitsRounds`). A show
//!   makes none. Noise for a node whose log is full stops the run, and then no line makes any.
//! - `LinePrints`: a settle prints what is unsettled, if anything is, and a show the table (`IsTable`). `Prints`: what
//!   lines make and print together. `script_of`: a settle, the plan's lines, a settle and a show.
//! - `laws::every_script`: over a topology each record is lawful (`lawful`, by `IsLawfulRecord`). So each merge of its
//!   logs and posts is a run, and in each first part of it the laws of the mesh hold.
//! - Lines after lines make stages after stages (`follow`). Logs and posts grow at their ends (`grow`), and the setups
//!   that are posted are those of the lines, unless the run stops (`posts`). If it stops, the log of that node is full
//!   (`full`).
//! - With one worker a lawful list of stages is the only one, with one text (`alone`). Its last stage is a function of
//!   the script (`function`).
//! - Each fail line with nothing but settle, wait and show behind it is such a failure (`FailsLast`), or the run was
//!   stopped before (`fails`). Let the network be calm and quiet there, and no later round drop, lose or hold back a
//!   frame that was sent since. Then each guarded call that is hit is restored in as many rounds as its routes take
//!   (`restored`, by `RestoresInRounds`). With one worker as many as sweeps in order take are enough.
//! - `sort_rows`: the same rows (`same_calls`, `same_legs`), in the order of a table (`calls`, `legs`).
//!
//! Tested: no test of its own, since it has no code but the order of rows. The tests of the built program print its
//! tables.
#![tactic(auto)]

pub mod laws;
pub mod table_rows;

pub use laws::every_script;
pub use table_rows::sort_rows;
