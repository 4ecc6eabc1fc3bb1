//! Classes of objects.

ghost use Rattle.std.specs.Prelude.{◌≡◌};
ghost use Rattle.rsvp_messages.specs.Objects.{is_among, known_classes};

pub(crate) const SESSION: u8 = 1;

pub(crate) const RSVP_HOP: u8 = 3;

pub(crate) const TIME_VALUES: u8 = 5;

pub(crate) const ERROR_SPEC: u8 = 6;

pub(crate) const STYLE: u8 = 8;

pub(crate) const FLOWSPEC: u8 = 9;

pub(crate) const FILTER_SPEC: u8 = 10;

pub(crate) const SENDER_TEMPLATE: u8 = 11;

pub(crate) const SENDER_TSPEC: u8 = 12;

pub(crate) const ADSPEC: u8 = 13;

pub(crate) const POLICY_DATA: u8 = 14;

pub(crate) const LABEL: u8 = 16;

pub(crate) const LABEL_REQUEST: u8 = 19;

pub(crate) const EXPLICIT_ROUTE: u8 = 20;

pub(crate) const RECORD_ROUTE: u8 = 21;

pub(crate) const MESSAGE_ID: u8 = 23;

pub(crate) const MESSAGE_ID_ACK: u8 = 24;

pub(crate) const UPSTREAM_LABEL: u8 = 35;

pub(crate) const LABEL_SET: u8 = 36;

pub(crate) const PROTECTION: u8 = 37;

pub(crate) const PRIMARY_PATH_ROUTE: u8 = 38;

pub(crate) const NOTIFY_REQUEST: u8 = 195;

pub(crate) const ASSOCIATION: u8 = 199;

/// Whether a message reads objects of this class, or else carries them. Others are ignored from 128 on.
pub(crate) fn is_known(class: u8) -> bool
    ensures { result ≡ is_among known_classes class }
{
    matches!(
        class,
        SESSION
            | RSVP_HOP
            | TIME_VALUES
            | ERROR_SPEC
            | STYLE
            | FLOWSPEC
            | FILTER_SPEC
            | SENDER_TEMPLATE
            | SENDER_TSPEC
            | ADSPEC
            | POLICY_DATA
            | LABEL
            | LABEL_REQUEST
            | EXPLICIT_ROUTE
            | RECORD_ROUTE
            | MESSAGE_ID
            | MESSAGE_ID_ACK
            | UPSTREAM_LABEL
            | LABEL_SET
            | PROTECTION
            | PRIMARY_PATH_ROUTE
            | NOTIFY_REQUEST
            | ASSOCIATION
    )
}
