//! The first part of a text, and words in front of it.

ghost use Rattle.std.specs.{Prelude.{◌≡◌, ◌<◌, ◌==◌, IfSome, length, position}, Option.option_map};
ghost use Rattle.trace_text.specs.Words.{behind_word, both_now, parted};

fn place(text: &[u8], at: u8) -> Option<usize>
    ensures place { result ≡ position (λ b. b == at) text.now }
    ensures within { IfSome result (λ k. k < length text.now) }
{
    text.iter().position(|b| *b == at)
}

/// What stands before the first such byte, and what behind it; none where there is none.
pub fn parted(text: &[u8], at: u8) -> Option<(&[u8], &[u8])>
    ensures { option_map both_now result ≡ parted at text.now }
{
    let k = place(text, at)?;
    Some((&text[..k], &text[k + 1..]))
}

/// What is behind this word, where the text begins with it.
pub fn behind_word<'a>(word: &[u8], text: &'a [u8]) -> Option<&'a [u8]>
    ensures { option_map (λ b. b.now) result ≡ behind_word word.now text.now }
{
    text.strip_prefix(word)
}
