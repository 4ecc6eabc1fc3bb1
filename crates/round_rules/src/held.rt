//! What a station holds back.

use ason_base::NodeId;
use station_rings::Parcel;

/// A parcel that is held, and how often the node ticked since its taking.
#[derive(Drop)]
pub struct HeldParcel {
    pub from: NodeId,
    pub parcel: Parcel,
    pub ticks: u64,
}
