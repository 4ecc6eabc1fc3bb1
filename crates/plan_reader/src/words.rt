//! Words and numbers in texts.

ghost use Rattle.std.specs.Prelude.{◌≡◌, filter_map, IfOk, Ok};
ghost use Rattle.plan_reader.specs.{Entries.FailsBy, PlanTexts.{are_link_ids, are_numbers, link_id, link_ids, word_up_to, word_parts, positive_at, texts, word_at, words_of}};

use crate::faults::{EntryError, PlanKind};
use crate::limits::MOST_NUMBER;
use ason_base::{Numbers, OutOfMemory, is_numeral, number_within};
use std::alloc::{AllocError, Global};

fn collect_words(alloc: Global, line: &[u8]) -> Result<Vec<&[u8]>, AllocError>
    ensures { IfOk result (λ words. texts words.items ≡ words_of line.now) }
{
    line.split(|b| *b == b' ')
        .filter(|w| !w.is_empty())
        .collect(alloc)
}

/// The words of a line, apart by one or more spaces.
pub fn words_of(alloc: Global, line: &[u8]) -> Result<Vec<&[u8]>, OutOfMemory>
    ensures { IfOk result (λ words. texts words.items ≡ words_of line.now) }
{
    let words = collect_words(alloc, line)?;
    Ok(words)
}

/// The word at a place, from 0; empty where there is none.
pub fn word<'a>(words: &[&'a [u8]], k: usize) -> &'a [u8]
    ensures { result.now ≡ word_at (texts words.now) k }
{
    match words.get(k) {
        None => &[],
        Some(word) => word,
    }
}

/// The number that the word writes, where it is one and is at most `most`.
pub fn number(word: &[u8], most: u32) -> Option<u32>
    ensures { result ≡ word_up_to most word.now }
{
    match number_within(word, 0, u64::from(most)) {
        Ok(n) => Some(n as u32),
        Err(_) => None,
    }
}

/// The number of the word at this place, from 1 to `most`, or the fault of its range.
pub fn positive_at(words: &[&[u8]], k: usize, most: u32) -> Result<u32, EntryError>
    ensures number { IfOk result (λ n. positive_at k most (texts words.now) ≡ Ok n) }
    ensures fault { FailsBy result (positive_at k most (texts words.now)) }
{
    match number_within(word(words, k), 1, u64::from(most)) {
        Ok(n) => Ok(n as u32),
        Err(_) => Err(EntryError::Fault(PlanKind::Range)),
    }
}

fn link_id(part: &[u8]) -> Option<u32>
    ensures { result ≡ link_id part.now }
{
    number(part, MOST_NUMBER)
}

/// Whether the word is numbers with commas between them.
pub fn are_numbers(word: &[u8]) -> bool
    ensures { result ≡ are_numbers word.now }
{
    word.split(|b| *b == b',').all(is_numeral)
}

fn are_link_ids(word: &[u8]) -> bool
    ensures { result ≡ are_link_ids word.now }
{
    word.split(|b| *b == b',')
        .all(|part| link_id(part).is_some())
}

fn collect_ids(alloc: Global, word: &[u8]) -> Result<Vec<u32>, AllocError>
    ensures { IfOk result (λ v. v.items ≡ filter_map link_id (word_parts word.now)) }
{
    word.split(|b| *b == b',')
        .filter_map(|part| link_id(part))
        .collect(alloc)
}

/// The link ids of the word, which has commas between them: none where one is out of reach.
pub fn link_ids(alloc: Global, word: &[u8]) -> Result<Option<Numbers>, OutOfMemory>
    ensures { IfOk result (λ ids. ids ≡ link_ids word.now) }
{
    if !are_link_ids(word) {
        return Ok(None);
    }
    let ids = collect_ids(alloc, word)?;
    Ok(Some(Numbers::from_vec(ids)))
}
