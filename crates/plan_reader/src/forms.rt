//! Which words make a line of a script.

ghost use Rattle.std.specs.Prelude.{◌≡◌, ◌≤◌};
ghost use Rattle.plan_reader.specs.{PlanTexts.texts, PlanForms.{are_numbers_word, begins, command_form, directions_from, disturb_form, form, is_disturb, is_fail, is_group_line, is_noise, is_number_word, is_repair, is_route_word, is_settle, is_show, is_wait, is_word, routes_from, setup_form}};

use crate::words::{are_numbers, word};
use ason_base::{DisturbKind, is_numeral};

/// Whether the word at this place is this one.
pub fn is_word(words: &[&[u8]], k: usize, text: &str) -> bool
    ensures { result ≡ is_word (texts words.now) k text.now }
{
    word(words, k) == text.as_bytes()
}

// So many words, of which the first is this.
fn begins(words: &[&[u8]], text: &str, n: usize) -> bool
    ensures { result ≡ begins (texts words.now) text.now n }
{
    words.len() == n && is_word(words, 0, text)
}

fn is_number_word(words: &[&[u8]], k: usize) -> bool
    ensures { result ≡ is_number_word (texts words.now) k }
{
    is_numeral(word(words, k))
}

fn are_numbers_word(words: &[&[u8]], k: usize) -> bool
    ensures { result ≡ are_numbers_word (texts words.now) k }
{
    are_numbers(word(words, k))
}

// Setups

/// A setup: whether its call is protected, whether it is two-way, and the places of the words that give its routes, from 0,
/// where these are given.
#[derive(Clone, Copy)]
pub struct SetupForm {
    pub protected: bool,
    pub both: bool,
    pub via: Option<usize>,
    pub backup: Option<usize>,
}

fn form(protected: bool, both: bool, via: Option<usize>, backup: Option<usize>) -> SetupForm
    ensures { result ≡ form protected both via backup }
{
    SetupForm {
        protected,
        both,
        via,
        backup,
    }
}

// This word, and behind it `L,..`
fn is_route_word(words: &[&[u8]], k: usize, text: &str) -> bool
    requires { k ≤ 9 }
    ensures { result ≡ is_route_word (texts words.now) k text.now }
{
    is_word(words, k, text) && are_numbers_word(words, k + 1)
}

// `[via L,..]` from this place on to the end, or of a protected call `via L,.. backup L,..`
fn routes_from(words: &[&[u8]], k: usize, protected: bool, both: bool) -> Option<SetupForm>
    requires { k ≤ 6 }
    ensures { result ≡ routes_from (texts words.now) k protected both }
{
    let count = words.len();
    if count == k {
        Some(form(protected, both, None, None))
    } else if count == k + 2 && is_route_word(words, k, "via") {
        Some(form(protected, both, Some(k + 1), None))
    } else if protected
        && count == k + 4
        && is_route_word(words, k, "via")
        && is_route_word(words, k + 2, "backup")
    {
        Some(form(protected, both, Some(k + 1), Some(k + 3)))
    } else {
        None
    }
}

// `[both]` at this place, and then the routes.
fn directions_from(two_way: bool, words: &[&[u8]], k: usize, protected: bool) -> Option<SetupForm>
    requires { k ≤ 5 }
    ensures { result ≡ directions_from two_way (texts words.now) k protected }
{
    if two_way && is_word(words, k, "both") {
        routes_from(words, k + 1, protected, true)
    } else {
        routes_from(words, k, protected, false)
    }
}

/// The form of a setup, with the word `both` only where calls may be two-way; none of another line.
pub fn setup_form(two_way: bool, words: &[&[u8]]) -> Option<SetupForm>
    ensures { result ≡ setup_form two_way (texts words.now) }
{
    if !is_word(words, 0, "setup") {
        None
    } else if is_word(words, 4, "unprotected") {
        directions_from(two_way, words, 5, false)
    } else {
        directions_from(two_way, words, 4, true)
    }
}

// Other commands

// `srlg N` or `link N` behind this word.
fn is_group_line(words: &[&[u8]], text: &str) -> bool
    ensures { result ≡ is_group_line (texts words.now) text.now }
{
    begins(words, text, 3)
        && (is_word(words, 1, "srlg") || is_word(words, 1, "link"))
        && is_number_word(words, 2)
}

// `fail srlg N`, `fail link N`
fn is_fail(words: &[&[u8]]) -> bool
    ensures { result ≡ is_fail (texts words.now) }
{
    is_group_line(words, "fail")
}

// `repair srlg N`, `repair link N`
fn is_repair(words: &[&[u8]]) -> bool
    ensures { result ≡ is_repair (texts words.now) }
{
    is_group_line(words, "repair")
}

/// Which command other than a setup a line is: `release NAME`, `protect NAME`, `retry NAME`, `revert NAME`, or one of a
/// group.
#[derive(Clone, Copy)]
pub enum CommandForm {
    Release,
    Protect,
    Retry,
    Revert,
    Fail,
    Repair,
}

/// Which command other than a setup the line is; none of another line.
pub fn command_form(words: &[&[u8]]) -> Option<CommandForm>
    ensures { result ≡ command_form (texts words.now) }
{
    if begins(words, "release", 2) {
        Some(CommandForm::Release)
    } else if begins(words, "protect", 2) {
        Some(CommandForm::Protect)
    } else if begins(words, "retry", 2) {
        Some(CommandForm::Retry)
    } else if begins(words, "revert", 2) {
        Some(CommandForm::Revert)
    } else if is_fail(words) {
        Some(CommandForm::Fail)
    } else if is_repair(words) {
        Some(CommandForm::Repair)
    } else {
        None
    }
}

// Other lines

/// Whether the line is `settle R`.
pub fn is_settle(words: &[&[u8]]) -> bool
    ensures { result ≡ is_settle (texts words.now) }
{
    begins(words, "settle", 2) && is_number_word(words, 1)
}

/// Whether the line is `wait N`.
pub fn is_wait(words: &[&[u8]]) -> bool
    ensures { result ≡ is_wait (texts words.now) }
{
    begins(words, "wait", 2) && is_number_word(words, 1)
}

/// Whether the line is `show`.
pub fn is_show(words: &[&[u8]]) -> bool
    ensures { result ≡ is_show (texts words.now) }
{
    begins(words, "show", 1)
}

// Lines of frames

// `A B K` behind this word.
fn is_disturb(words: &[&[u8]], text: &str) -> bool
    ensures { result ≡ is_disturb (texts words.now) text.now }
{
    begins(words, text, 4) && is_number_word(words, 3)
}

/// What the line does to a frame: `lose A B K`, `repeat A B K` or `hold A B K`; none of another line.
pub fn disturb_form(words: &[&[u8]]) -> Option<DisturbKind>
    ensures { result ≡ disturb_form (texts words.now) }
{
    if is_disturb(words, "lose") {
        Some(DisturbKind::Lose)
    } else if is_disturb(words, "repeat") {
        Some(DisturbKind::Repeat)
    } else if is_disturb(words, "hold") {
        Some(DisturbKind::Hold)
    } else {
        None
    }
}

/// Whether the line is `noise A B HEX`, whatever its last word is.
pub fn is_noise(words: &[&[u8]]) -> bool
    ensures { result ≡ is_noise (texts words.now) }
{
    begins(words, "noise", 4)
}
