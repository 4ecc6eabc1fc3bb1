//! What a ring promises of its parcels.

ghost use Rattle.station_rings.specs.Protocols.{FollowsParcels};

use crate::Parcel;
use rtrb::Protocol;

/// Numbers rise, stamps never fall, and each frame bears something.
#[derive(Clone, Copy)]
pub struct Rising;

impl Protocol<Parcel> for Rising {
    ghost allows = { FollowsParcels };
}
