//! Pairs of routes, and which of two is the better one.

ghost use Rattle.std.specs.Prelude.{◌≡◌, false, true, Some};
ghost use Rattle.pair_search.specs.Searches.{as_good, at_most, weighed, IsNoWorse, IsOneOf, IsPairReached};

use ason_base::{Step, Steps};

/// A primary route, its backup, and the sum of their costs.
#[derive(Drop)]
pub(crate) struct RoutePair {
    pub(crate) primary: Steps,
    pub(crate) backup: Steps,
    pub(crate) total: u32,
}

// Whether the links of the first route are the same, or stand before those of the second.
fn is_at_most(a: &[Step], b: &[Step]) -> bool
    ensures { result ≡ at_most a.now b.now }
{
    let [x, xs @ ..] = a else {
        return true;
    };
    let [y, ys @ ..] = b else {
        return false;
    };
    x.link < y.link || (x.link == y.link && is_at_most(xs, ys))
}

// Whether the first pair is the better one, or as good.
fn is_as_good(first: &RoutePair, second: &RoutePair) -> bool
    ensures { result ≡ as_good (weighed first.now) (weighed second.now) }
{
    if first.total != second.total {
        return first.total < second.total;
    }
    let one = first.primary.items();
    let other = second.primary.items();
    is_at_most(one, other)
        && (!is_at_most(other, one) || is_at_most(first.backup.items(), second.backup.items()))
}

// Whether the best pair so far is as good as this one; if not, this one is the better one.
fn is_reached(best: &Option<RoutePair>, pair: &RoutePair) -> bool
    ensures reached { result ≡ true → IsPairReached best.now (weighed pair.now) }
    ensures better { result ≡ false → IsNoWorse best.now (Some pair.now) }
{
    match best {
        None => false,
        Some(old) => is_as_good(old, pair),
    }
}

/// Keeps the pair where it is better than the best one so far.
pub(crate) fn keep_better(best: &mut Option<RoutePair>, pair: RoutePair)
    ensures kept { IsNoWorse best.old best.new }
    ensures reached { IsPairReached best.new (weighed pair) }
    ensures one { IsOneOf best.old pair best.new }
{
    if !is_reached(best, &pair) {
        *best = Some(pair);
    }
}
