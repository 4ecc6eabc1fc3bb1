//! The words of `load`.

ghost use Rattle.std.specs.Prelude.{◌≡◌, ◌<◌, ◌≤◌, ◌%◌, map, string_bytes};
ghost use Rattle.commands.specs.Loads.{load_of};

use crate::numbers::number;
use ason_base::limits::{MOST_CALLS, MOST_NODES};
use std::marker::Model;

/// How many nodes and calls there are at most, as numbers that a word writes.
const NODES: u64 = MOST_NODES as u64;

const CALLS: u64 = MOST_CALLS as u64;

/// What is generated: a seed, an even number of nodes from 4 to 64, and a number of calls from 1 to 4,096.
#[derive(Clone, Copy, Drop)]
pub struct Load {
    seed: u64,
    nodes: u32,
    calls: u32,
}

impl Model for Load {
    ghost use Rattle.commands.specs.Loads.{CanBeLoaded, LoadView};

    ghost Value = { LoadView };

    ghost view = { λ l. record { seed = l.seed; nodes = l.nodes; calls = l.calls } };

    ghost inverse = { λ v. record { seed = v.seed; nodes = v.nodes; calls = v.calls } };

    ghost invariant = { λ l. CanBeLoaded (record { seed = l.seed; nodes = l.nodes; calls = l.calls }) };
}

impl Load {
    /// From what is drawn.
    pub fn seed(self) -> u64
        ensures { result ≡ self.seed }
    {
        self.seed
    }

    /// How many nodes.
    pub fn nodes(self) -> u32
        ensures nodes { result ≡ self.nodes }
        ensures even { result % 2 ≡ 0 }
        ensures some { 4 ≤ result }
        ensures most { result ≤ MOST_NODES }
    {
        self.nodes
    }

    /// How many calls.
    pub fn calls(self) -> u32
        ensures calls { result ≡ self.calls }
        ensures some { 1 ≤ result }
        ensures most { result ≤ MOST_CALLS }
    {
        self.calls
    }
}

/// What these words behind `load` say, a seed, nodes and calls: none exactly where they have no meaning.
pub(crate) fn load_of(words: &[String]) -> Option<Load>
    ensures { result ≡ load_of (map string_bytes words.now) }
{
    match words {
        [seed, nodes, calls] => {
            let seed = number(seed, 0, 18_446_744_073_709_551_615)?;
            let nodes = number(nodes, 4, NODES)?;
            let calls = number(calls, 1, CALLS)?;
            if nodes % 2 != 0 {
                return None;
            }
            Some(Load {
                seed,
                nodes: nodes as u32,
                calls: calls as u32,
            })
        }
        [] | [_] | [_, _] => None,
        [_, _, _, _, ..] => None,
    }
}
