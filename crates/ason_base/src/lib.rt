//! Shared types of the optical controllers: numbers, labels, routes, risks, messages, calls, commands and the topology.
//!
//! - `Label::new`: a label exactly for 1 to 80.
//! - `LabelSet`: contracts see the rising list of its labels (law `LabelSet::rises`). The code keeps a mask of 128
//!   bits, which `bits` gives and `from_bits` takes.
//! - `Items<T>`: the list type of most lists. `push` adds at the end (`ok`). Out of memory it changes nothing (`err`).
//! - `Boxed<T>`: a value in a box, which contracts see as the value. The command of an `Event` is in one, so lines of a
//!   log stay small.
//! - `Copied`: each `copy` gives the same value again, and `copy_all` the same list.
//! - `Srlgs::of`: the numbers that were given (`same`), each once (`exact`) and rising (`rising`). `push` asks for a
//!   number above all others, so the SRLGs of every row rise (law `Srlgs::rises`).
//! - `Topology::new`: with Ok the topology has just these nodes and links (`value`) and fulfils `IsTopology` (`valid`).
//!   A fault is the first one (`fault`): the count comes first, then the nodes, then the links.
//! - `TeRow::of`, `rows_of`: the rows of links, by `row_of`. By the lemmas of `Bridges` a link joins the same nodes,
//!   shares the same risks and has the same walks as its row.
//! - `route_end`, `makes_route`, `routes_share_risk`, `routes_share_node`, `is_beside`: each is the definition of its
//!   name in `Routes`.
//! - `RiskSet::of`: with Ok just the risks of the route's links (`risks`), each once (`exact`) and rising (`rising`).
//!   Each of these links has a row (`known`). `Unknown` names the first link without one (`unknown`).
//! - `RiskSet::disjoint`: true exactly when no risk is in both sets (`apart`, `exact`).
//! - `number_within`: the number that a word writes in decimal, without sign and leading zero (`exact`). `NoNumber`
//!   comes exactly when it writes none, and `OutOfRange` exactly when its number is outside the bounds, even above
//!   2^64.
//! - Laws `limits` and `codes`: the limits of the program and the error codes, in numbers.
//! - `InOrder` defines lists in order of a key, and `KeyOrder`, `LspOrder`, `KeyedLists` and `Inserted` have their
//!   lemmas.
//! - `Writable` defines what a message needs to be written. Its set of labels isn't empty, its route has at most 64
//!   steps, and its primary route 1 to 64.
//!
//! Tested: nothing of its own. The crates above use it.
#![tactic(auto)]

pub mod boxes;
pub mod calls;
pub mod codes;
pub mod commands;
pub mod constants;
pub mod copies;
pub mod ids;
pub mod items;
pub mod labels;
pub mod limits;
pub mod lists;
pub mod messages;
pub mod network;
pub mod numerals;
pub mod risks;
pub mod routes;
pub mod steps;
pub mod tables;

pub use boxes::Boxed;
pub use calls::{CallRow, CallRows, CallState, Cause, LegRow, LegRows, Phase, Role, TableRows};
pub use codes::ErrCode;
pub use commands::{Command, DeskItem, Disturb, DisturbKind, Entry, EntryRef, Event, Group};
pub use copies::{Copied, copy_all};
pub use ids::{CallNo, Fibre, LinkId, Lsp, NodeId, OutOfMemory};
pub use items::Items;
pub use labels::{Label, LabelSet};
pub use lists::{Bytes, Numbers, Srlgs};
pub use messages::{DecodeError, Ids, Msg, MsgId, Packet, PathRole};
pub use network::{LinkSpec, NodeSpec, TeRow, Topology, TopologyFault};
pub use numerals::{NumeralFault, is_numeral, number_within};
pub use risks::{Risk, RiskFault, RiskSet};
pub use steps::{Step, Steps};
pub use tables::{CallRec, Fibres, Leg, Out, Outs};
