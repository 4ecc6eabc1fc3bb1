//! Which risks keep backups off the labels of fibres that come in (RFC 4872, section 9: shared-mesh restoration).
//!
//! A backup guards the risks of its primary on its label. Backups whose primaries have one of these risks are kept off
//! it. So backups that share a label have primaries without a common risk, and no failure of one risk needs the label
//! for two.
//!
//! - `Shares::guard`: with Ok the LSP guards just these risks on the label, and all else is guarded as it was (`ok`, by
//!   `GuardsJust`). Out of memory nothing has changed (`err`). It asks that the LSP guarded none there.
//! - `Shares::unguard`: the LSP guards none there, and all else is guarded as it was. It has no condition, and takes no
//!   memory.
//! - `Shares::fits`: Ok comes only when no guard of the label has one of the risks (`fits`). Otherwise `Meets` tells
//!   the least of the risks that is guarded there, and the least LSP that guards it (`meets`). So Ok comes exactly when
//!   none meets.
//! - `Shares::fitting`: just the labels from 1 to 80 that fit.
//! - The invariants: each label stands once (`AreTalliesApart`), and its risks are in order (`AreRisksInOrder`).
//!
//! `is_risk_guarded` says LSP by LSP and risk by risk what is guarded. So no clause speaks of the order in which guards
//! came.
//!
//! Tested: node_tests give inputs to nodes by hand. `tests/test_labels.py` has labels that backups share and give up.
#![tactic(auto)]

mod guarded;
mod labels;
mod shares;

pub use guarded::Meets;
pub use shares::Shares;
