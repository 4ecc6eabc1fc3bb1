//! Laws of whole messages.

ghost use Rattle.std.specs.Prelude.{◌≡◌, ◌<◌, ◌^◌, ℕ, List};
ghost use Rattle.ason_base.specs.{declared.ids.NodeId.NodeId, declared.messages.Packet.Packet};
ghost use Rattle.rsvp_messages.specs.{Damage.{BitChangesAreRefused, ByteChangesAreRefused}, Objects.{Object, of_class}, Packets.{ObjectsComeInAnyOrder, Spells, SpellsPacket}, Writable.{PacketFits, IsWritable, ReadIsWritable}, Written.written};

use rsvp_objects::association::associations_come_back;
use rsvp_objects::error::errors_come_back;
use rsvp_objects::hop::hops_come_back;
use rsvp_objects::id::ids_come_back;
use rsvp_objects::label::labels_come_back;
use rsvp_objects::label_set::label_sets_come_back;
use rsvp_objects::protection::protections_come_back;
use rsvp_objects::request::requests_come_back;
use rsvp_objects::sender::senders_come_back;
use rsvp_objects::session::sessions_come_back;
use wire_buf::routes::routes_come_back;

/// The written form of a packet that can be written spells it.
pub fn packets_come_back()
    ensures { (sender : NodeId) (p : Packet) → sender.0 < 2 ^ 32 → IsWritable p → PacketFits p
        → Spells (written sender p) p }
{
    errors_come_back();
    hops_come_back();
    ids_come_back();
    labels_come_back();
    label_sets_come_back();
    requests_come_back();
    senders_come_back();
    sessions_come_back();
    associations_come_back();
    protections_come_back();
    routes_come_back();
}

/// Objects come in any order: those with the same objects of each class, in order, spell the same packets.
pub fn order_of_classes_is_free()
    ensures { (os others : List Object) (p : Packet)
        → ((class : ℕ) → of_class class os ≡ of_class class others) → SpellsPacket os p
        → SpellsPacket others p }
{}

/// The objects of a whole message come in any order: one of that type with the same objects in another order, whose
/// checksum is right or wasn't sent, spells the same packet. Acknowledgements are a list, so their order is that of the
/// packet.
pub fn order_of_objects_is_free()
    ensures { ObjectsComeInAnyOrder }
{}

/// What is read can be written: bytes spell a packet that has a written form, but for a Path whose LABEL_SETs leave no
/// label.
pub fn what_is_read_can_be_written()
    ensures { ReadIsWritable }
{}

/// A message that was sent with a checksum (RFC 2205, section 3.1.1) spells nothing any more once a byte outside the
/// checksum's field is another one, so once one bit there is.
pub fn every_change()
    ensures byte { ByteChangesAreRefused }
    ensures bit { BitChangesAreRefused }
{}
