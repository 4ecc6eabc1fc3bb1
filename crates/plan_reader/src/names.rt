//! Names of nodes and calls.

ghost use Rattle.std.specs.Prelude.{◌≡◌, ◌<◌, length, IfOk, IfSome, IsTrue};
ghost use Rattle.plan_reader.specs.Names.{are_name_bytes, has_name, is_name, is_name_byte, is_name_rest, place_of, same_text};

use crate::limits::MOST_MORE_CHARACTERS;
use ason_base::{Items, OutOfMemory};
use std::alloc::Global;
use std::marker::Model;

#[tactic(auto, unfolding(crate::specs::Names::is_name_byte))]
fn is_name_byte(b: u8) -> bool
    ensures { result ≡ is_name_byte b }
{
    b.is_ascii_alphanumeric() || b == b'_' || b == b'-'
}

fn are_name_bytes(text: &[u8]) -> bool
    ensures { result ≡ are_name_bytes text.now }
{
    text.iter().all(|b| is_name_byte(*b))
}

fn is_name_rest(text: &[u8]) -> bool
    ensures { result ≡ is_name_rest text.now }
{
    text.len() <= MOST_MORE_CHARACTERS && are_name_bytes(text)
}

/// Whether the text is a name: 1 to 16 characters, the first an ASCII letter, the others ASCII letters, digits, `_` or `-`.
pub fn is_name(text: &[u8]) -> bool
    ensures { result ≡ is_name text.now }
{
    match text {
        [] => false,
        [first, others @ ..] => first.is_ascii_alphabetic() && is_name_rest(others),
    }
}

/// A name: contracts see its text.
pub struct Name {
    text: String,
}

impl Model for Name {
    ghost use Rattle.std.specs.Prelude.{List, ℕ, string_bytes};

    ghost Value = { List ℕ };

    ghost view = { λ n. string_bytes n.text };
}

impl Name {
    /// The name of this text: 1 to 16 characters, the first an ASCII letter, the others ASCII letters, digits, `_` or `-`.
    pub fn new(alloc: Global, text: &[u8]) -> Result<Name, OutOfMemory>
        requires { IsTrue (is_name text.now) }
        ensures { IfOk result (λ n. n ≡ text.now) }
    {
        let Ok(text) = std::str::from_utf8(text) else {
            unreachable!();
        };
        let text = String::from_str(alloc, text)?;
        Ok(Name { text })
    }

    pub fn as_str(&self) -> &str
        ensures { result.now ≡ self.now }
    {
        self.text.as_str()
    }

    fn is(&self, text: &[u8]) -> bool
        ensures { result ≡ same_text self.now text.now }
    {
        self.text.as_str().as_bytes() == text
    }
}

impl Drop for Name {
    fn drop(self) {
        let Name { text: _ } = self;
    }
}

/// A list of names.
pub type Names = Items<Name>;

/// The place of a name, from 0: none exactly where it isn't there.
pub(crate) fn place_of(names: &Names, name: &[u8]) -> Option<usize>
    ensures place { result ≡ place_of names.now name.now }
    ensures within { IfSome result (λ k. k < length names.now) }
{
    names.items().iter().position(|n| n.is(name))
}

/// Whether a name is there.
pub(crate) fn has_name(names: &Names, name: &[u8]) -> bool
    ensures { result ≡ has_name names.now name.now }
{
    names.items().iter().any(|n| n.is(name))
}
