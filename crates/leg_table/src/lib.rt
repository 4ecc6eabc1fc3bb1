//! What a node keeps: its own links and those that it knows, its legs and its calls, and what a rule changes of these.
//!
//! It also says when the tables, the owner of the labels and the shares of the backups are those of one node.
//!
//! - `TablesFit`: the tables, the owner and the shares are of one node, as they are at the start. The node is an end of
//!   each of its links, the legs fit them, and the owner has the fibres of these links. The known rows begin with those
//!   of the node's own links. The three items below are part of it.
//! - `ClaimsFit`: the owner's claims are exactly the labels that legs take.
//! - `MarksFit`: an LSP's mark is on a label exactly when its leg is a backup that is Armed, Live or Falling and uses
//!   the label.
//! - `GuardsFit`: the guarded risks are exactly those that backups record, each on the label that the backup takes.
//! - `MayBeCarriedOut` and `IsCarriedOut`: what carrying out a rule's answer asks for, and what it promises. After Ok
//!   what the answer changes is as it says (`ok`), and what it sends is handed back, in order (`sent`). Out of memory
//!   nothing has changed (`err`, `err_owner`, `err_shares`, `err_calls`).
//! - `Keyed`: an item of a list in order of a key, each key once. `find_item`, `find_place`, `put_item` and `take_item`
//!   find, put and take it off by halving.
//! - `add_fibre`: the fibre is in the list then, once (`ok`). Out of memory nothing has changed (`err`).
//! - `Calls`: the calls of an ingress, rising by number, and the numbers that it gives out next. Two indexes have
//!   exactly the working and the backup LSPs of the calls (`AreCalls`). `with_lsp` looks in them, and finds the first
//!   call if several have the LSP. `CallList::change` asks for room, which `reserve` makes.
//! - `LegMap`: the legs in a map, and beside it their LSPs in order (`LegMapFits`). Contracts see the legs in that
//!   order (`LegSet`). A leg comes or goes without moving another. `put` asks for room, which `reserve` makes, so it
//!   can't be refused. `LspKey` is an LSP as one number.
//! - `NodeTables`: the legs rise by LSP and are at most 4,096 (law `NodeTables::rises`). `new` gives a node of the
//!   topology with its own links and their rows, and no leg. A number that no node has gives tables without links.
//! - `Change`: what a rule changes and sends. `take_sent` takes out what it sends, and `into_parts` takes it apart.
//!
//! The fields with the legs, the rows and the calls are public. The check asks for the invariants wherever they are
//! changed.
//!
//! Tested: node_tests give inputs to nodes by hand, and `tests/test_calls.py` calls of a run.
//! Neither proved nor tested: speed.
#![tactic(auto)]

pub mod call_list;
mod call_table;
mod calls;
pub mod changes;
pub mod edits;
mod fibres;
pub mod keyed;
pub mod labels;
pub mod leg_map;
mod lsp_index;
pub mod lsp_keys;
mod numbered;
pub mod one_leg;
mod tables;

pub use call_table::Calls;
pub use changes::{Change, ChangeParts};
pub use fibres::add_fibre;
pub use tables::NodeTables;
