//! The parts of a trace around its entries.

ghost use Rattle.std.specs.{Prelude.{◌≡◌, ◌∷◌, [], IfOk, bytes_eq, drop, option_copied, take}, Option.option_map};
ghost use Rattle.ason_base.specs.Network.{IsTopology};
ghost use Rattle.plan_reader.specs.Plans.{Answers, ArePostable, HasNames};
ghost use Rattle.trace_text.specs.{LinesRead.lines_now, TraceForms.{count_in, form_now, form_of, head_now, head_of, is_version_2, lines_behind, number_in, of_lines, plan_within, table_in, table_of, version_of}, Words.both_now};

use crate::entries::stamp_of;
use crate::reading::{ReadLines, read_lines};
use crate::words::{behind_word, parted};
use ason_base::{Entry, NumeralFault, OutOfMemory, number_within};
use plan_reader::{Plan, PlanError, read_plan, read_plan_1};
use std::alloc::Global;

fn is_newline(bytes: &[u8], place: usize) -> bool
    ensures { result ≡ bytes_eq (take 1 (drop place bytes.now)) (10 ∷ []) }
{
    match bytes.get(place) {
        None => false,
        Some(b) => *b == b'\n',
    }
}

fn number_in(word: Option<&[u8]>) -> Option<u64>
    ensures { result ≡ number_in (option_copied word.entry) }
{
    stamp_of(word?)
}

fn plan_within(bytes: &[u8], count: Option<u64>) -> Option<(&[u8], &[u8])>
    ensures { option_map both_now result ≡ plan_within bytes.now count }
{
    let count = count?;
    if count >= bytes.len() as u64 {
        return None;
    }
    let count = count as usize;
    if !is_newline(bytes, count) {
        return None;
    }
    Some((&bytes[..count], &bytes[count + 1..]))
}

fn version_of(line: &[u8]) -> Option<u8>
    ensures { result ≡ version_of line.now }
{
    if line == b"ason-trace 2".as_slice() {
        Some(2)
    } else if line == b"ason-trace 1".as_slice() {
        Some(1)
    } else {
        None
    }
}

/// The version of a trace, the plan's bytes, and what is behind the newline after them.
#[derive(Clone, Copy)]
pub struct Head<'a> {
    pub version: u8,
    pub plan: &'a [u8],
    pub rest: &'a [u8],
}

/// The head of a trace; none where it isn't there.
pub fn head_of(bytes: &[u8]) -> Option<Head<'_>>
    ensures { option_map head_now result ≡ head_of bytes.now }
{
    let (line, rest) = parted(bytes, b'\n')?;
    let version = version_of(line)?;
    let (line, rest) = parted(rest, b'\n')?;
    let (plan, rest) = plan_within(rest, number_in(behind_word(b"plan ".as_slice(), line)))?;
    Some(Head {
        version,
        plan,
        rest,
    })
}

/// Reads the plan of a trace of this version. Before version 2 no setup was two-way.
pub fn plan_of(alloc: Global, version: u8, bytes: &[u8]) -> Result<Plan, PlanError>
    ensures plan { Answers (is_version_2 version) bytes.now result }
    ensures valid { IfOk result (λ p. IsTopology p.topology) }
    ensures postable { IfOk result (λ p. ArePostable p.topology [] p.lines) }
    ensures named { IfOk result (λ p. HasNames p) }
{
    if version == 2 {
        read_plan(alloc, bytes)
    } else {
        read_plan_1(alloc, bytes)
    }
}

// How many entries are told. A number above all that could be there counts as the greatest.
fn count_in(word: Option<&[u8]>) -> Option<u64>
    ensures { result ≡ count_in (option_copied word.entry) }
{
    match number_within(word?, 0, u64::MAX) {
        Ok(count) => Some(count),
        Err(NumeralFault::NoNumber) => None,
        Err(NumeralFault::OutOfRange) => Some(u64::MAX),
    }
}

fn table_in(body: Option<&[u8]>) -> Option<&[u8]>
    ensures { option_map (λ b. b.now) result ≡ table_in (option_copied body.entry) }
{
    let body = body?;
    if body.len() < 4 {
        return None;
    }
    let end = body.len() - 4;
    if &body[end..] == b"end\n".as_slice() && (end == 0 || is_newline(body, end - 1)) {
        Some(&body[..end])
    } else {
        None
    }
}

/// The table, which stands between the lines `table` and `end`, and nothing after these.
pub fn table_of(bytes: &[u8]) -> Option<&[u8]>
    ensures { option_map (λ b. b.now) result ≡ table_of bytes.now }
{
    table_in(behind_word(b"table\n".as_slice(), bytes))
}

/// The entries of a trace, and the text of its table.
#[derive(Drop)]
pub struct Form<'a> {
    pub entries: Vec<Entry>,
    pub table: &'a [u8],
}

/// What is read of lines as a form, or the first index that is wrong.
pub fn of_lines<'a>(read: ReadLines<'a>) -> Result<Form<'a>, u64>
    ensures { form_now result ≡ of_lines (lines_now read.entry) }
{
    if let Some(i) = read.wrong {
        return Err(i);
    }
    match table_of(read.rest) {
        None => Err(read.entries.len() as u64 + 1),
        Some(table) => Ok(Form {
            entries: read.entries,
            table,
        }),
    }
}

/// The entries behind the plan, up to the first line that is wrong; none where no line tells how many there are.
pub fn lines_behind<'a>(
    alloc: Global,
    plan: &Plan,
    rest: &'a [u8],
) -> Result<Option<ReadLines<'a>>, OutOfMemory>
    ensures { IfOk result (λ o. option_map lines_now o ≡ lines_behind plan.now rest.now) }
{
    let Some((line, body)) = parted(rest, b'\n') else {
        return Ok(None);
    };
    match count_in(behind_word(b"events ".as_slice(), line)) {
        None => Ok(None),
        Some(count) => {
            let read = read_lines(alloc, plan, count, body)?;
            Ok(Some(read))
        }
    }
}

/// The entries and the table behind the plan's bytes, or the first index that is wrong.
pub fn form_of<'a>(
    alloc: Global,
    plan: &Plan,
    rest: &'a [u8],
) -> Result<Result<Form<'a>, u64>, OutOfMemory>
    ensures { IfOk result (λ f. form_now f ≡ form_of plan.now rest.now) }
{
    match lines_behind(alloc, plan, rest)? {
        None => Ok(Err(0)),
        Some(read) => Ok(of_lines(read)),
    }
}
