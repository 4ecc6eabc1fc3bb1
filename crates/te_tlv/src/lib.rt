//! Rows of links as Link TLVs (RFC 3630, RFC 4203).
//!
//! - `read_row`: a row exactly when the bytes from this origin spell it, by `SpellsRow`. NotMessage comes exactly when
//!   they spell none.
//! - `write_row`: the bytes of `link_tlv` (`written`), which spell the row (`spelled`). `append_row` puts them behind
//!   others.
//! - Both ask for `IsRowWritable`. The origin is an end of the row, whose ends differ and stand in order. The metric is
//!   1 to 65,535, and there are at most 16 SRLGs.
//! - Law `row_fits`: the numbers of every row have their widths, and its SRLGs rise.
//! - Law `rows_come_back`: what is written of a row spells it (`written`). Bytes of one origin spell at most one row
//!   (`once`).
//! - Law `types`: the types of the TLV and of its sub-TLVs, in numbers.
//!
//! Tested: codec_tests write a TLV, and `tests/test_frames.py` shows those of a run, from both ends of a link.
//! `tests/test_floods.py` has sub-TLVs in any order, missing or double ones, wrong lengths and values, and sixteen
//! SRLGs.
#![tactic(auto)]

pub mod constants;
mod found;
pub mod laws;
pub mod reading;
pub mod srlgs;
pub mod sub_tlvs;
pub mod writing;

pub use reading::read_row;
pub use writing::{append_row, write_row};
