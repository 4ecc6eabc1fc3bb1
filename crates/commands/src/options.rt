//! The options of `run`.

ghost use Rattle.std.specs.Prelude.{◌≡◌, ◌<◌, ◌≤◌, IfSome, length, map, option_map, string_bytes};
ghost use Rattle.commands.specs.{Options.run_of, Given.{AreGiven, after_value, next_given, next_given_now, run_given, with_telling}};

use crate::numbers::number;
use ason_base::limits::{MOST_TURNS, MOST_WORKERS};
use std::marker::Model;

/// How many workers and turns there are at most, as numbers that a word writes.
const WORKERS: u64 = MOST_WORKERS as u64;

const TURNS: u64 = MOST_TURNS as u64;

/// On how many threads at most the nodes work, from 1 to 16, and how many turns each node makes in a round, from 1 to 64.
#[derive(Clone, Copy, Drop)]
pub struct Pace {
    workers: usize,
    stride: u32,
}

impl Model for Pace {
    ghost use Rattle.commands.specs.Paces.{IsWithin, PaceView};

    ghost Value = { PaceView };

    ghost view = { λ p. record { workers = p.workers; stride = p.stride } };

    ghost inverse = { λ v. record { workers = v.workers; stride = v.stride } };

    ghost invariant = { λ p. IsWithin (record { workers = p.workers; stride = p.stride }) };
}

impl Pace {
    /// How many threads at most.
    pub fn workers(self) -> usize
        ensures workers { result ≡ self.workers }
        ensures some { 1 ≤ result }
        ensures most { result ≤ MOST_WORKERS }
    {
        self.workers
    }

    /// How many turns.
    pub fn stride(self) -> u32
        ensures stride { result ≡ self.stride }
        ensures some { 1 ≤ result }
        ensures most { result ≤ MOST_TURNS }
    {
        self.stride
    }
}

/// What is told of a run.
#[derive(Clone, Copy, Drop)]
pub(crate) enum Telling {
    /// Its tables.
    Tables,
    /// Its trace.
    Trace,
    /// Its tables, and the last view of a node, behind whose name so many words stand.
    Watch(usize),
}

/// What the options of `run` say: how the run goes, and what is told of it.
#[derive(Clone, Copy, Drop)]
pub(crate) struct RunOptions {
    pub(crate) pace: Pace,
    pub(crate) telling: Telling,
}

// The options that were given so far.
#[derive(Clone, Copy, Drop)]
struct Given {
    workers: Option<usize>,
    stride: Option<u32>,
    telling: Option<Telling>,
}

impl Given {
    // What they say; one worker, one turn and the tables where nothing is said.
    fn said(self) -> RunOptions
        requires { AreGiven self }
        ensures { result ≡ run_given self }
    {
        let pace = Pace {
            workers: self.workers.unwrap_or(1),
            stride: self.stride.unwrap_or(1),
        };
        RunOptions {
            pace,
            telling: self.telling.unwrap_or(Telling::Tables),
        }
    }

    // With what is to be told, of which nothing is said yet.
    fn with_telling(self, telling: Telling) -> Option<Given>
        requires { AreGiven self }
        ensures given { result ≡ with_telling self telling }
        ensures within { IfSome result AreGiven }
    {
        match self.telling {
            Some(_) => None,
            None => Some(Given {
                telling: Some(telling),
                ..self
            }),
        }
    }

    // With one option more that has a value, behind which so many words stand, and isn't given yet.
    fn with(self, option: &String, value: &String, behind: usize) -> Option<Given>
        requires { AreGiven self }
        ensures given { result
            ≡ after_value self (string_bytes option.now) (string_bytes value.now) behind }
        ensures within { IfSome result AreGiven }
    {
        match option.as_str() {
            "--workers" if self.workers.is_none() => {
                let workers = number(value, 1, WORKERS)?;
                Some(Given {
                    workers: Some(workers as usize),
                    ..self
                })
            }
            "--stride" if self.stride.is_none() => {
                let stride = number(value, 1, TURNS)?;
                Some(Given {
                    stride: Some(stride as u32),
                    ..self
                })
            }
            "--watch" => self.with_telling(Telling::Watch(behind)),
            _ => None,
        }
    }
}

// What is given with the first option of these words, and the words behind it.
fn next_given(given: Given, words: &[String]) -> Option<(Given, &[String])>
    requires { AreGiven given }
    ensures next { option_map next_given_now result ≡ next_given given (map string_bytes words.now) }
    ensures within { IfSome result (λ next. AreGiven next.0) }
    ensures fewer { IfSome result (λ next. length next.1.now < length words.now) }
{
    match words {
        [] => None,
        [option, others @ ..] if option.as_str() == "--trace" => {
            let given = given.with_telling(Telling::Trace)?;
            Some((given, others))
        }
        [option, value, others @ ..] => {
            let given = given.with(option, value, others.len())?;
            Some((given, others))
        }
        [_] => None,
    }
}

/// What these words behind `run` say: none exactly where they have no meaning.
pub(crate) fn run_of(words: &[String]) -> Option<RunOptions>
    ensures { result ≡ run_of (map string_bytes words.now) }
{
    let mut given = Given {
        workers: None,
        stride: None,
        telling: None,
    };
    let mut rest = words;
    'options: loop {
        match rest {
            [] => return Some(given.said()),
            [_, ..] => {
                let (now, others) = next_given(given, rest)?;
                given = now;
                rest = others;
            }
        }
    }
}
