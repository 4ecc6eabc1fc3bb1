//! The links of a station.

ghost use Rattle.std.specs.{Prelude.{◌≡◌, ◌+◌, ◌<◌, ◌≤◌, ◌++◌, ◌∷◌, [], MatchOption, Some, length, position, slice_get, vec_capacity, vec_len}, List.{AllByRecursion, AllZip, list_any}};
ghost use Rattle.rtrb.specs.Ring.{known_items};
ghost use Rattle.station_rings.specs.LinkStates.{IsFetched, IsTaken, LinkState};
ghost use Rattle.round_rules.specs.Moves.{ArePeersApart, IsChangedAt, IsSentOver, peers_of};
ghost use Rattle.station.specs.Sending.{BearsAll, IsEmptyAt, IsHeadAt, MaySend, is_link_to};

use ason_base::NodeId;
use controller::Frame;
use station_rings::{Head, Link, Parcel};

/// The frame that came first over the link at a place, which leads to its sender.
#[derive(Clone, Copy, Drop)]
pub(crate) struct Ahead {
    pub(crate) place: usize,
    pub(crate) from: NodeId,
    pub(crate) head: Head,
}

/// The place of the link to this neighbour.
pub(crate) fn place_of(links: &[Link], n: NodeId) -> Option<usize>
    ensures { result ≡ position (is_link_to n) links.now }
{
    links.iter().position(|link| link.peer() == n)
}

// Sends a frame over the link at this place.
fn send_over(links: &mut Vec<Link>, place: usize, frame: Frame, stamp: u64)
    requires there { position (is_link_to frame.to) links.old.items ≡ Some place }
    requires apart { ArePeersApart links.old.items }
    requires may { AllByRecursion (MaySend 1 stamp) links.old.items }
    requires bears { BearsAll (frame ∷ []) }
    ensures { AllZip (IsSentOver stamp (frame ∷ [])) links.old.items links.new.items }
{
    let link = &mut links[place];
    link.send(frame.bytes, stamp);
}

// Sends a frame over the link to its neighbour.
fn send_frame(links: &mut Vec<Link>, frame: Frame, stamp: u64)
    requires apart { ArePeersApart links.old.items }
    requires may { AllByRecursion (MaySend 1 stamp) links.old.items }
    requires bears { BearsAll (frame ∷ []) }
    ensures { AllZip (IsSentOver stamp (frame ∷ [])) links.old.items links.new.items }
{
    match place_of(links, frame.to) {
        None => {}
        Some(place) => send_over(links, place, frame, stamp),
    }
}

/// Sends these frames with the stamp of the line that sends them, in order. It takes no memory.
pub(crate) fn send_frames(links: &mut Vec<Link>, frames: &mut Vec<Frame>, stamp: u64)
    requires apart { ArePeersApart links.old.items }
    requires may { AllByRecursion (MaySend (length frames.old.items) stamp) links.old.items }
    requires bears { BearsAll frames.old.items }
    ensures { AllZip (IsSentOver stamp frames.old.items) links.old.items links.new.items }
{
    for frame in frames.drain(..) {
        send_frame(links, frame, stamp);
    }
}

/// The neighbour to which the link at this place leads.
pub(crate) fn peer_at(links: &Vec<Link>, place: usize) -> NodeId
    requires { place < length links.now.items }
    ensures { slice_get (peers_of links.now.items) place ≡ Some result }
{
    links[place].peer()
}

/// What is known of the frame that came first over the link at this place, which stays.
pub(crate) fn head_at(links: &mut Vec<Link>, place: usize) -> Option<Head>
    requires { place < length links.old.items }
    ensures fetched { IsChangedAt IsFetched place links.old.items links.new.items }
    ensures head { MatchOption result (IsEmptyAt place links.new.items)
        (λ h. IsHeadAt h place links.new.items) }
{
    let link = &mut links[place];
    link.head()
}

/// Whether some link was used since it was last looked at.
pub(crate) fn any_used(links: &[Link]) -> bool
    ensures { result ≡ list_any (λ (l : LinkState). l.used) links.now }
{
    links.iter().any(|link| link.is_used())
}

/// Takes that frame.
pub(crate) fn take_at(links: &mut Vec<Link>, place: usize) -> Parcel
    requires place { place < length links.old.items }
    requires some { (l : LinkState) → slice_get links.old.items place ≡ Some l → 0 < length l.early }
    ensures { IsChangedAt (IsTaken result) place links.old.items links.new.items }
{
    let link = &mut links[place];
    link.take()
}

/// How many frames are known to stand in the ring at this place.
pub(crate) fn known_at(links: &Vec<Link>, place: usize) -> usize
    requires { place < length links.now.items }
    ensures { (l : LinkState) → slice_get links.now.items place ≡ Some l →
        result ≡ length l.early + length (known_items l.into) }
{
    links[place].known()
}

/// Puts a link at the end, where there is room for it.
pub(crate) fn attach(links: &mut Vec<Link>, link: Link)
    requires { vec_len links.old + 1 ≤ vec_capacity links.old }
    ensures { links.new.items ≡ links.old.items ++ link ∷ [] }
{
    match links.push(link) {
        Ok(()) => {}
        Err(_) => unreachable!(),
    }
}
