//! Numbers that words write.

ghost use Rattle.std.specs.Prelude.{◌≡◌, IfSome, string_bytes};
ghost use Rattle.commands.specs.Numbers.{Between, number_in};

use ason_base::number_within;

/// The number that the word writes, where it is one and is from `least` to `most`.
pub(crate) fn number(word: &String, least: u64, most: u64) -> Option<u64>
    ensures number { result ≡ number_in least most (string_bytes word.now) }
    ensures within { IfSome result (Between least most) }
{
    number_within(word.as_str().as_bytes(), least, most).ok()
}
