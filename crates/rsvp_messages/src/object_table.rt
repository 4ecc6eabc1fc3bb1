//! The objects of a message, and the one of each class.

ghost use Rattle.std.specs.{Prelude.{◌≡◌, ◌≤◌, ◌<◌, ◌^◌, length, IfNone, IfSome}, Option.{option_map, option_to_list}};
ghost use Rattle.rsvp_messages.specs.{Objects.of_class, Places.{HasPlaces, noted}, Seen.{all_seen, seen}};

use crate::raw::RawObject;
use std::marker::Model;

/// Of the classes below it is noted where their objects stand: all that are read but ASSOCIATION.
const NOTED: usize = 64;

/// What stands for the place of a class with several objects.
const SEVERAL: u16 = u16::MAX;

/// The objects of a message, in order, and where those of each class stand.
#[derive(Drop)]
pub(crate) struct Objects<'a, 'b> {
    items: &'b [RawObject<'a>],
    // Of each class that is noted: 0 where there is none, else the place of the only object, from 1 on, or SEVERAL.
    places: [u16; NOTED],
}

impl<'a, 'b> Model for Objects<'a, 'b> {
    ghost use Rattle.std.specs.Prelude.{List};
    ghost use Rattle.rsvp_messages.specs.declared.raw.RawObject as raw;
    ghost use Rattle.rsvp_messages.specs.Places.{HasPlaces};

    ghost Value = { List raw.RawObject };

    ghost view = { λ o. o.items.now };

    ghost invariant = { λ o. HasPlaces o.items.now o.places };
}

// Notes the place of an object, which counts from 1, or that its class has several.
fn noted(before: u16, place: u16) -> u16
    ensures { result ≡ noted before place }
{
    if before == 0 { place } else { SEVERAL }
}

fn places_of(items: &[RawObject]) -> [u16; NOTED]
    requires { length items.now < 2 ^ 14 }
    ensures { HasPlaces items.now result }
{
    let mut places = [0; NOTED];
    for i in 0..items.len() {
        let class = usize::from(items[i].class);
        if class < NOTED {
            places[class] = noted(places[class], i as u16 + 1);
        }
    }
    places
}

// The object of a class, if there is one. None exactly where there are two.
fn at_most_one<'a>(objects: &[RawObject<'a>], class: u8) -> Option<Option<RawObject<'a>>>
    ensures found { IfSome result (λ found. of_class class (all_seen objects.now) ≡ option_to_list
        (option_map seen found)) }
    ensures many { IfNone result (2 ≤ length (of_class class (all_seen objects.now))) }
{
    let mut found = None;
    'objects: for object in objects {
        if object.class != class {
            continue;
        }
        if found.is_some() {
            return None;
        }
        found = Some(*object);
    }
    Some(found)
}

impl<'a, 'b> Objects<'a, 'b> {
    /// These objects. A message has fewer than 2^14, since each takes four bytes at least.
    pub fn of(items: &'b [RawObject<'a>]) -> Objects<'a, 'b>
        requires { length items.now < 2 ^ 14 }
        ensures { result ≡ items.now }
    {
        Objects {
            items,
            places: places_of(items),
        }
    }

    pub fn items(&self) -> &[RawObject<'a>]
        ensures { result.now ≡ self.now }
    {
        self.items
    }

    /// The object of a class, if there is one. None exactly where there are two.
    pub fn at_most_one(&self, class: u8) -> Option<Option<RawObject<'a>>>
        ensures found { IfSome result (λ found. of_class class (all_seen self.now) ≡ option_to_list
            (option_map seen found)) }
        ensures many { IfNone result (2 ≤ length (of_class class (all_seen self.now))) }
    {
        if usize::from(class) >= NOTED {
            return at_most_one(self.items, class);
        }
        match self.places[usize::from(class)] {
            0 => Some(None),
            SEVERAL => None,
            place => Some(Some(self.items[usize::from(place) - 1])),
        }
    }
}
