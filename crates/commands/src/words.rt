//! The words behind a command.

ghost use Rattle.std.specs.Prelude.{◌≡◌, map, string_bytes};
ghost use Rattle.commands.specs.Replies.{name_before};
ghost use Rattle.plan_reader.specs.PlanTexts.{word_at};

/// The word at a place, from 0; empty where there is none.
pub fn word_at(words: &[String], place: usize) -> &str
    ensures { result.now ≡ word_at (map string_bytes words.now) place }
{
    match words.get(place) {
        None => "",
        Some(word) => word.as_str(),
    }
}

/// The word behind which so many stand; empty where there is none.
pub fn name_before(words: &[String], behind: usize) -> &str
    ensures { result.now ≡ name_before (map string_bytes words.now) behind }
{
    word_at(words, words.len().saturating_sub(behind).saturating_sub(1))
}
