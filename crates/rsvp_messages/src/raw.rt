//! Objects one after the other (RFC 2205, section 3.1.2).

ghost use Rattle.std.specs.Prelude.{◌≡◌, ◌≤◌, ◌*◌, List, [], ◌∷◌, length, drop, All, IfOk, IfSome, IsErrOf, IsSome};
ghost use Rattle.wire_buf.specs.Objects.{number_at};
ghost use Rattle.rsvp_messages.specs.{Objects.{AreObjects, BeginsWith, Object, is_among, may_stand, size_of}, Seen.{all_seen, seen}};

use crate::classes::is_known;
use ason_base::DecodeError;
use byteorder::{BigEndian, ByteOrder};
use std::alloc::Global;
use wire_buf::Cursor;

/// How many objects are written at most in a message without acknowledgements.
const MOST_WRITTEN: usize = 13;

/// An object as it lies in a message.
#[derive(Clone, Copy, Drop)]
pub(crate) struct RawObject<'a> {
    pub class: u8,
    pub ctype: u8,
    pub body: &'a [u8],
}

pub(crate) fn is_among(classes: &[u8], class: u8) -> bool
    ensures { result ≡ is_among classes.now class }
{
    classes.iter().any(|known| *known == class)
}

fn may_stand(class: u8) -> bool
    ensures { result ≡ may_stand class }
{
    class >= 128 || is_known(class)
}

// An object's length, with these four bytes, its class and its C-Type.
#[derive(Clone, Copy, Drop)]
struct Head {
    len: u16,
    class: u8,
    ctype: u8,
}

// The header at the front. None exactly where four bytes aren't there.
fn next_head(cursor: &mut Cursor<'_>) -> Option<Head>
    ensures len { IfSome result (λ h. h.len ≡ number_at 0 2 cursor.old) }
    ensures class { IfSome result (λ h. h.class ≡ number_at 2 1 cursor.old) }
    ensures ctype { IfSome result (λ h. h.ctype ≡ number_at 3 1 cursor.old) }
    ensures there { IfSome result (λ h. 4 ≤ length cursor.old) }
    ensures left { IfSome result (λ h. cursor.new ≡ drop 4 cursor.old) }
    ensures only { 4 ≤ length cursor.old → IsSome result }
{
    let bytes = cursor.take(4)?;
    Some(Head {
        len: BigEndian::read_u16(bytes),
        class: bytes[2],
        ctype: bytes[3],
    })
}

// The object at the front. None exactly where there is none; then the cursor may be anywhere.
fn next_object<'a>(cursor: &mut Cursor<'a>) -> Option<RawObject<'a>>
    ensures found { IfSome result (λ o. BeginsWith cursor.old (seen o)
        × (cursor.new ≡ drop (size_of (seen o)) cursor.old)) }
    ensures only { (o : Object) → BeginsWith cursor.old o → IsSome result }
{
    let Head { len, class, ctype } = next_head(cursor)?;
    let len = usize::from(len);
    if len < 4 || len % 4 != 0 || !may_stand(class) {
        return None;
    }
    let body = cursor.take(len - 4)?;
    Some(RawObject { class, ctype, body })
}

/// The object that the bytes are to their end. Where there is none, they may be several.
pub(crate) fn only_object(bytes: &[u8]) -> Option<RawObject<'_>>
    ensures { IfSome result (λ o. AreObjects bytes.now (seen o ∷ [])) }
{
    let mut cursor = Cursor::new(bytes);
    let object = next_object(&mut cursor)?;
    if cursor.is_empty() {
        Some(object)
    } else {
        None
    }
}

/// The objects that the bytes are. NotMessage exactly where they aren't objects to their end.
pub(crate) fn read_objects<'a>(
    alloc: Global,
    bytes: &'a [u8],
) -> Result<Vec<RawObject<'a>>, DecodeError>
    ensures found { IfOk result (λ os. AreObjects bytes.now (all_seen os.items)) }
    ensures short { IfOk result (λ os. All (λ o. size_of (seen o) ≤ length bytes.now) os.items) }
    ensures few { IfOk result (λ os. 4 * length os.items ≤ length bytes.now) }
    ensures only { (os : List Object) → AreObjects bytes.now os
        → IfOk result (λ read. all_seen read.items ≡ os) }
    ensures not_message { IsErrOf result DecodeError.NotMessage → (os : List Object)
        → ¬ AreObjects bytes.now os }
{
    let mut cursor = Cursor::new(bytes);
    let mut objects = match Vec::with_capacity(alloc, MOST_WRITTEN) {
        Ok(objects) => objects,
        Err(_) => return Err(DecodeError::OutOfMemory),
    };
    'objects: while !cursor.is_empty() {
        let Some(object) = next_object(&mut cursor) else {
            return Err(DecodeError::NotMessage);
        };
        push_decoded!(objects, object);
    }
    Ok(objects)
}
