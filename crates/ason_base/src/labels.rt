//! Labels, and sets of labels (RFC 3471, section 3).

ghost use Rattle.std.specs.Prelude.{◌≡◌, ◌≤◌, [], SomeIff, filter, length};
ghost use Rattle.ason_base.specs.Labels.{has, least, meet, members, up_to, with_label, without};

use crate::limits::MOST_LABELS;
use std::marker::Model;

/// A bit for each label.
const LABELS: u128 = (1 << MOST_LABELS) - 1;

/// A wavelength of a fibre: 1 to 80.
#[derive(Clone, Copy, PartialEq, Eq, Drop)]
pub struct Label(u8);

impl Model for Label {
    ghost use Rattle.std.specs.Prelude.{ℕ, ◌≤◌};
    ghost use Rattle.ason_base.specs.declared.limits.TheConstants.{MOST_LABELS};

    ghost Value = { ℕ };

    ghost view = { λ l. l.0 };

    ghost invariant = { λ l. (1 ≤ l.0) × (l.0 ≤ MOST_LABELS) };

    ghost inverse = { λ n. record { 0 = n } };
}

impl Label {
    /// The label of this number: none exactly outside 1 to 80.
    pub fn new(n: u8) -> Option<Label>
        ensures { SomeIff result ((1 ≤ n) × (n ≤ MOST_LABELS)) n }
    {
        if (1..=MOST_LABELS).contains(&n) {
            Some(Label(n))
        } else {
            None
        }
    }

    /// The label's number.
    pub fn number(&self) -> u8
        ensures same { result ≡ self.now }
        ensures low { 1 ≤ result }
        ensures high { result ≤ MOST_LABELS }
    {
        self.0
    }
}

/// A set of labels. Contracts see it as the rising list of its members.
#[derive(Drop)]
pub struct LabelSet {
    // Bit n stands for label n.
    mask: u128,
}

impl Model for LabelSet {
    ghost use Rattle.std.specs.Prelude.{List, ℕ};
    ghost use Rattle.ason_base.specs.Labels.{members};

    ghost Value = { List ℕ };

    ghost view = { λ s. members s.mask };
}

impl LabelSet {
    /// No label.
    pub fn empty() -> LabelSet
        ensures { result ≡ [] }
    {
        LabelSet { mask: 0 }
    }

    /// The set of these bits: bit n stands for label n. Those that stand for no label say nothing.
    pub fn from_bits(bits: u128) -> LabelSet
        ensures { result ≡ members bits }
    {
        LabelSet { mask: bits }
    }

    /// The labels from 1 to n; none for 0.
    pub fn upto(n: u8) -> LabelSet
        requires { n ≤ MOST_LABELS }
        ensures { result ≡ up_to n }
    {
        LabelSet {
            mask: (2u128 << n) - 2,
        }
    }

    /// Whether the label is in the set.
    pub fn has(&self, l: Label) -> bool
        ensures { result ≡ has self.now l }
    {
        (self.mask >> l.number()) & 1 == 1
    }

    /// The labels of both sets.
    pub fn meet(&self, o: &LabelSet) -> LabelSet
        ensures { result ≡ meet self.now o.now }
    {
        LabelSet {
            mask: self.mask & o.mask,
        }
    }

    /// The least label: none exactly where the set is empty.
    pub fn least(&self) -> Option<Label>
        ensures { result ≡ least self.now }
    {
        let labels = self.mask >> 1;
        if labels == 0 {
            return None;
        }
        let lowest = labels.trailing_zeros() + 1;
        if lowest > u32::from(MOST_LABELS) {
            return None;
        }
        Label::new(lowest as u8)
    }

    /// How many labels there are.
    pub fn len(&self) -> usize
        ensures count { result ≡ length self.now }
        ensures few { result ≤ MOST_LABELS }
    {
        ((self.mask >> 1) & LABELS).count_ones() as usize
    }

    /// The set and this label.
    pub fn with(&self, l: Label) -> LabelSet
        ensures { result ≡ with_label self.now l }
    {
        LabelSet {
            mask: self.mask | (1u128 << l.number()),
        }
    }

    /// The set but this label.
    pub fn without(&self, l: Label) -> LabelSet
        ensures { result ≡ without self.now l }
    {
        LabelSet {
            mask: self.mask & !(1u128 << l.number()),
        }
    }

    /// The set as bits: bit n stands for label n. Those that stand for no label say nothing.
    pub fn bits(&self) -> u128
        ensures { members result ≡ self.now }
    {
        self.mask
    }

    /// Law: a set is the rising list of the labels of 1 to 80 that it has.
    pub fn rises(&self)
        ensures { self.now ≡ filter (has self.now) (up_to MOST_LABELS) }
    {
        let _mask = self.mask;
    }

    /// The same set again.
    pub fn copy(&self) -> LabelSet
        ensures { result ≡ self.now }
    {
        LabelSet { mask: self.mask }
    }
}
