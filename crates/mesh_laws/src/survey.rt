//! What a survey tells of risk groups.

use ason_base::{CallNo, Fibre, Group, Items, Label};

/// Calls, by number.
pub type CallNos = Items<CallNo>;

/// The calls that the failure of a group would hit: those with a reserved backup, and the others.
pub struct Hit {
    pub group: Group,
    pub guarded: CallNos,
    pub bare: CallNos,
}

impl Drop for Hit {
    fn drop(self) {
        let Hit {
            group: _,
            guarded: _,
            bare: _,
        } = self;
    }
}

/// Two guarded calls that would contend for a label if both groups failed: the first group hits the
/// one, the second group the other, and the backups of both take the label.
#[derive(Clone, Copy, Drop)]
pub struct Contend {
    pub first: Group,
    pub second: Group,
    pub fibre: Fibre,
    pub label: Label,
    pub one: CallNo,
    pub two: CallNo,
}
