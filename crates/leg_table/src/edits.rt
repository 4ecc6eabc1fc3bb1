//! Items put at a place of a list that has room.

ghost use Rattle.std.specs.Prelude.{◌≡◌, ◌≤◌, ◌<◌, ◌+◌, insert, slice_set, vec_capacity, vec_len};

/// Puts the item at its place. There is room for it.
pub fn insert_here<T: Drop>(items: &mut Vec<T>, place: usize, item: T)
    requires within { place ≤ vec_len items.old }
    requires room { vec_len items.old < vec_capacity items.old }
    ensures items { items.new.items ≡ insert items.old.items place item }
    ensures len { vec_len items.new ≡ vec_len items.old + 1 }
    ensures capacity { vec_capacity items.new ≡ vec_capacity items.old }
{
    match items.insert(place, item) {
        Ok(()) => {}
        Err(_) => unreachable!(),
    }
}

/// Puts the item in the place of the one there.
pub fn replace_here<T: Drop>(items: &mut Vec<T>, place: usize, item: T)
    requires { place < vec_len items.old }
    ensures items { items.new.items ≡ slice_set items.old.items place item }
    ensures len { vec_len items.new ≡ vec_len items.old }
    ensures capacity { vec_capacity items.new ≡ vec_capacity items.old }
{
    items[place] = item;
}
