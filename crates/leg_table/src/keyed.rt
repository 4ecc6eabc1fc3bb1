//! Lists in order of a key, in which an item is found by halving.

ghost use Rattle.std.specs.{Prelude.{◌≡◌, ◌≤◌, ◌<◌, ◌+◌, Bool, IfSome, filter, find, length, not, position, slice_get, true, vec_capacity, vec_len}, List.position_or_len, Option.option_copied};
ghost use Rattle.ason_base.specs.InOrder.{IsKeyOrder, put_by};
ghost use Rattle.leg_table.specs.Keyed.{KeysRise, has_key, is_from, passes_there};

use crate::edits::{insert_here, replace_here};

/// An item of a list in order of a key, each key once.
pub trait Keyed {
    type Key: Copy;

    ghost key_of: { Self → Self.Key };

    ghost same: { Self.Key → Self.Key → Bool };

    ghost before: { Self.Key → Self.Key → Bool };

    fn key(&self) -> Self::Key
        ensures { result ≡ key_of self.now };

    fn is_same(a: Self::Key, b: Self::Key) -> bool
        ensures { result ≡ same a b };

    fn is_before(a: Self::Key, b: Self::Key) -> bool
        ensures { result ≡ before a b };

    /// One key is before another, or they are the same.
    ghost order: { IsKeyOrder same before };
}

fn is_from<T: Keyed>(item: &T, key: T::Key) -> bool
    ensures { result ≡ is_from T.before T.key_of key item.now }
{
    !T::is_before(item.key(), key)
}

// Whether an item with the key is at the place.
fn is_at<T: Keyed>(items: &[T], place: usize, key: T::Key) -> bool
    ensures there { result ≡ passes_there (has_key T.same T.key_of key) (slice_get items.now place) }
    ensures within { result ≡ true → place < length items.now }
{
    match items.get(place) {
        None => false,
        Some(item) => T::is_same(item.key(), key),
    }
}

/// The place of the first item whose key isn't before this one.
pub fn place_of<T: Keyed>(items: &[T], key: T::Key) -> usize
    requires { KeysRise T.before T.key_of items.now }
    ensures place { result ≡ position_or_len (is_from T.before T.key_of key) items.now }
    ensures within { result ≤ length items.now }
{
    items.partition_point(|item| !is_from(item, key))
}

/// The place of the item with the key.
pub fn find_place<T: Keyed>(items: &[T], key: T::Key) -> Option<usize>
    requires { KeysRise T.before T.key_of items.now }
    ensures { result ≡ position (has_key T.same T.key_of key) items.now }
{
    let place = place_of(items, key);
    if is_at(items, place, key) {
        Some(place)
    } else {
        None
    }
}

fn item_at<T>(items: &[T], place: usize) -> Option<&T>
    ensures { option_copied result ≡ slice_get items.now place }
{
    items.get(place)
}

/// The item with the key.
pub fn find_item<T: Keyed>(items: &[T], key: T::Key) -> Option<&T>
    requires { KeysRise T.before T.key_of items.now }
    ensures { option_copied result ≡ find (has_key T.same T.key_of key) items.now }
{
    match find_place(items, key) {
        None => None,
        Some(place) => item_at(items, place),
    }
}

/// Puts the item in the place of the one with its key, or before the later ones. There is room for it.
pub fn put_item<T: Keyed + Drop>(items: &mut Vec<T>, item: T)
    requires rising { KeysRise T.before T.key_of items.old.items }
    requires room { vec_len items.old < vec_capacity items.old }
    ensures items { items.new.items ≡ put_by T.same T.before T.key_of item items.old.items }
    ensures rising { KeysRise T.before T.key_of items.new.items }
    ensures len { vec_len items.new ≤ vec_len items.old + 1 }
    ensures capacity { vec_capacity items.new ≡ vec_capacity items.old }
{
    let key = item.key();
    let place = place_of(items, key);
    if is_at(items, place, key) {
        replace_here(items, place, item);
    } else {
        insert_here(items, place, item);
    }
}

/// Takes the item with the key off.
pub fn take_item<T: Keyed + Drop>(items: &mut Vec<T>, key: T::Key) -> Option<T>
    requires { KeysRise T.before T.key_of items.old.items }
    ensures item { result ≡ find (has_key T.same T.key_of key) items.old.items }
    ensures left { items.new.items ≡ filter (λ x. not (has_key T.same T.key_of key x)) items.old.items }
    ensures rising { KeysRise T.before T.key_of items.new.items }
    ensures len { vec_len items.new ≤ vec_len items.old }
    ensures some { IfSome result (λ x. vec_len items.new + 1 ≡ vec_len items.old) }
    ensures capacity { vec_capacity items.new ≡ vec_capacity items.old }
{
    match find_place(items, key) {
        None => None,
        Some(place) => Some(items.remove(place)),
    }
}
