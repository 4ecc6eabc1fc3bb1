//! Looking up the objects of a class.

ghost use Rattle.std.specs.{Prelude.{◌≡◌, ℕ, List, [], ◌∷◌, Option, IfSome, IsSome}, Option.{option_map, option_to_list}};
ghost use Rattle.rsvp_messages.specs.{Objects.of_class, Seen.all_seen};

use crate::object_table::Objects;

/// The body of the one object of a class. None exactly where there isn't one, or it has another C-Type.
pub(crate) fn one<'a>(objects: &Objects<'a, '_>, class: u8, ctype: u8) -> Option<&'a [u8]>
    ensures found { IfSome result (λ body. of_class class (all_seen objects.now)
        ≡ record { class = class; ctype = ctype; body = body.now } ∷ []) }
    ensures only { (body : List ℕ) → of_class class (all_seen objects.now)
        ≡ record { class = class; ctype = ctype; body = body } ∷ [] → IsSome result }
{
    match objects.at_most_one(class) {
        Some(Some(object)) if object.ctype == ctype => Some(object.body),
        _ => None,
    }
}

/// The body of the object of a class, if there is one. None exactly where there are two, or one has another C-Type.
pub(crate) fn optional<'a>(
    objects: &Objects<'a, '_>,
    class: u8,
    ctype: u8,
) -> Option<Option<&'a [u8]>>
    ensures found { IfSome result (λ found. of_class class (all_seen objects.now) ≡ option_to_list
        (option_map (λ body. record { class = class; ctype = ctype; body = body.now }) found)) }
    ensures only { (found : Option (List ℕ))
        → of_class class (all_seen objects.now) ≡ option_to_list
        (option_map (λ body. record { class = class; ctype = ctype; body = body }) found)
        → IsSome result }
{
    match objects.at_most_one(class)? {
        None => Some(None),
        Some(object) if object.ctype == ctype => Some(Some(object.body)),
        Some(_) => None,
    }
}
