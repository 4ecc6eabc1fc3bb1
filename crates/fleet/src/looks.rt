//! Looks at both ends of a ring.

ghost use Rattle.std.specs.Prelude.{◌≡◌, ◌<◌, Some, false, length, slice_get};
ghost use Rattle.fleet.specs.{declared.seats.Seat.Seat, Connections.{AreSettled, HaveSeats}, Looks.{AreStationsJoined, HaveMet, IsAny, IsAround, IsLinkOfStation, LooksOver, has_used_link}, Views.publishers_of};
ghost use Rattle.round_rules.specs.States.{StationState};

use crate::seats::{End, Seat};
use station::Station;

// Looks at the link of one station and the link back at another. It takes no memory.
fn look(stations: &mut [Station], place: usize, link: usize, end: End)
    requires { AreStationsJoined stations.old place link end }
    ensures { HaveMet place link end stations.old stations.new }
{
    if place < end.station {
        let (low, high) = stations.split_at_mut(end.station);
        Station::look(&mut low[place], link, &mut high[0], end.link);
    } else {
        let (low, high) = stations.split_at_mut(place);
        Station::look(&mut high[0], link, &mut low[end.station], end.link);
    }
}

// Looks at both rings over one link of the station at this place.
fn look_over(seats: &[Seat], stations: &mut [Station], place: usize, link: usize)
    requires seats { HaveSeats seats.now stations.old }
    requires within { place < length seats.now }
    requires link { (s : Seat) → slice_get seats.now place ≡ Some s → link < length s.ends.items }
    ensures looks { LooksOver seats.now (IsLinkOfStation place link) stations.old stations.new }
    ensures seats { HaveSeats seats.now stations.new }
    ensures publishers { publishers_of stations.new ≡ publishers_of stations.old }
{
    look(stations, place, link, seats[place].ends[link]);
}

/// Looks at both ends of each ring of the station at this place.
pub(crate) fn look_around(seats: &[Seat], stations: &mut [Station], place: usize)
    requires seats { HaveSeats seats.now stations.old }
    requires within { place < length seats.now }
    ensures looks { LooksOver seats.now (IsAround place) stations.old stations.new }
    ensures seats { HaveSeats seats.now stations.new }
    ensures publishers { publishers_of stations.new ≡ publishers_of stations.old }
{
    for link in 0..seats[place].ends.len() {
        look_over(seats, stations, place, link);
    }
}

/// Looks at both ends of each ring of the station at this place, where it used one of its links. Where it used none, no
/// ring is to be looked at.
pub(crate) fn look_after(seats: &[Seat], stations: &mut [Station], place: usize)
    requires seats { HaveSeats seats.now stations.old }
    requires within { place < length seats.now }
    requires settled { (s : StationState) → slice_get stations.old place ≡ Some s →
        has_used_link s ≡ false → AreSettled seats.now stations.old }
    ensures looks { LooksOver seats.now (IsAround place) stations.old stations.new }
    ensures publishers { publishers_of stations.new ≡ publishers_of stations.old }
{
    if stations[place].has_used_link() {
        look_around(seats, stations, place);
    }
}

/// Looks at both ends of each ring.
pub(crate) fn look_all(seats: &[Seat], stations: &mut [Station])
    requires { HaveSeats seats.now stations.old }
    ensures looks { LooksOver seats.now IsAny stations.old stations.new }
    ensures settled { AreSettled seats.now stations.new }
    ensures publishers { publishers_of stations.new ≡ publishers_of stations.old }
{
    for place in 0..seats.len() {
        look_around(seats, stations, place);
    }
}
