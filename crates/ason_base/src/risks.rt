//! What may fail: shared risk link groups and links.

ghost use Rattle.std.specs.{Prelude.{◌≡◌, [], ◌∷◌, ◌++◌, ◌↔◌, None, Some, All, IfErr, IfOk, OnErr, OnOk, IsTrue, not}, List.Contains};
ghost use Rattle.ason_base.specs.{Risks.{is_below, AreDisjoint, AreRising, HasRisk, has_link_row, have_common, risks_of, route_risks, unknown_link}, declared.ids.LinkId.LinkId, declared.risks.Risk.Risk, declared.steps.Step.Step};

use crate::copies::Copied;
use crate::ids::{LinkId, OutOfMemory};
use crate::network::TeRow;
use crate::steps::Steps;
use std::alloc::Global;
use std::cmp::Ordering;
use std::marker::Model;

/// One thing that may fail under a link: an SRLG, or the link itself. SRLGs stand before links.
#[derive(Clone, Copy, PartialEq, Eq, PartialOrd, Ord, Drop)]
pub enum Risk {
    Srlg(u32),
    Link(LinkId),
}

/// A list of distinct risks, rising.
pub struct RiskSet {
    risks: Vec<Risk>,
}

impl Model for RiskSet {
    ghost use Rattle.std.specs.Prelude.{List};
    ghost use Rattle.ason_base.specs.declared.risks.Risk.{Risk};
    ghost use Rattle.ason_base.specs.Risks.{AreRising};

    ghost Value = { List Risk };

    ghost view = { λ s. s.risks.items };

    ghost invariant = { λ s. AreRising s.risks.items };
}

/// Why a route has no set of risks.
#[derive(Clone, Copy, Drop)]
pub enum RiskFault {
    /// The first link of the route that has no row.
    Unknown(LinkId),
    OutOfMemory,
}

impl RiskSet {
    /// No risk.
    pub fn new(alloc: Global) -> RiskSet
        ensures { result ≡ [] }
    {
        RiskSet {
            risks: Vec::new(alloc),
        }
    }

    /// Adds a risk above all that are there.
    pub fn push(&mut self, item: Risk) -> Result<(), OutOfMemory>
        requires { All (λ r. IsTrue (is_below r item)) self.old }
        ensures ok { OnOk result (self.new ≡ self.old ++ item ∷ []) }
        ensures err { OnErr result (self.new ≡ self.old) }
    {
        self.risks.push(item)?;
        Ok(())
    }

    pub fn items(&self) -> &[Risk]
        ensures same { result.now ≡ self.now }
        ensures rising { AreRising self.now }
    {
        &self.risks
    }

    /// The risks of a route: of each of its links the declared SRLGs and the link itself.
    pub fn of(alloc: Global, rows: &[TeRow], route: &Steps) -> Result<RiskSet, RiskFault>
        ensures exact { IfOk result (λ set. set ≡ route_risks rows.now route.now) }
        ensures risks { IfOk result
            (λ set. (r : Risk) → Contains set r ↔ HasRisk rows.now route.now r) }
        ensures rising { IfOk result (λ set. AreRising set) }
        ensures known { OnOk result (unknown_link rows.now route.now ≡ None) }
        ensures unknown { IfErr result (λ fault. (l : LinkId) → fault ≡ RiskFault.Unknown l →
            unknown_link rows.now route.now ≡ Some l) }
    {
        if let Some(link) = first_unknown(rows, route) {
            return Err(RiskFault::Unknown(link));
        }
        match rising_risks(alloc, rows, route) {
            Ok(risks) => Ok(RiskSet { risks }),
            Err(OutOfMemory) => Err(RiskFault::OutOfMemory),
        }
    }

    /// Whether no risk is in both sets.
    pub fn disjoint(&self, other: &RiskSet) -> bool
        ensures apart { IsTrue result ↔ AreDisjoint self.now other.now }
        ensures exact { result ≡ not (have_common self.now other.now) }
    {
        are_disjoint(&self.risks, &other.risks)
    }
}

impl Copied for RiskSet {
    fn copy(&self, alloc: Global) -> Result<RiskSet, OutOfMemory> {
        let risks = Vec::from_slice(alloc, &self.risks)?;
        Ok(RiskSet { risks })
    }
}

impl Drop for RiskSet {
    fn drop(self) {
        let RiskSet { risks: _ } = self;
    }
}

fn is_known(rows: &[TeRow], link: LinkId) -> bool
    ensures { result ≡ has_link_row rows.now link }
{
    rows.iter().any(|row| row.link == link)
}

// The first link of the route that has no row.
fn first_unknown(rows: &[TeRow], route: &Steps) -> Option<LinkId>
    ensures { result ≡ unknown_link rows.now route.now }
{
    route
        .items()
        .iter()
        .map(|step| step.link)
        .find(|link| !is_known(rows, *link))
}

// The risks of the route's links, in any order and any number of times.
fn gather(alloc: Global, rows: &[TeRow], route: &Steps) -> Result<Vec<Risk>, OutOfMemory>
    ensures { IfOk result (λ v. (r : Risk) → Contains v.items r ↔ HasRisk rows.now route.now r) }
{
    let mut risks = Vec::new(alloc);
    for row in rows {
        if passes(route, row.link) {
            push_risks(&mut risks, row)?;
        }
    }
    Ok(risks)
}

// Whether the route has the link.
fn passes(route: &Steps, link: LinkId) -> bool
    ensures { IsTrue result ↔ ((s : Step) × Contains route.now s × (link ≡ s.link)) }
{
    route.items().iter().any(|step| step.link == link)
}

// Adds the risks of the row's link.
fn push_risks(risks: &mut Vec<Risk>, row: &TeRow) -> Result<(), OutOfMemory>
    ensures { OnOk result (risks.new.items ≡ risks.old.items ++ risks_of row.now) }
{
    for srlg in row.srlgs.items() {
        risks.push(Risk::Srlg(*srlg))?;
    }
    risks.push(Risk::Link(row.link))?;
    Ok(())
}

// The risks of the route's links, rising.
fn rising_risks(alloc: Global, rows: &[TeRow], route: &Steps) -> Result<Vec<Risk>, OutOfMemory>
    ensures same { IfOk result (λ v. (r : Risk) → Contains v.items r ↔ HasRisk rows.now route.now r) }
    ensures rising { IfOk result (λ v. AreRising v.items) }
{
    let mut risks = gather(alloc, rows, route)?;
    order(&mut risks)?;
    Ok(risks)
}

// Puts the risks in order, each once.
fn order(risks: &mut Vec<Risk>) -> Result<(), OutOfMemory>
    ensures same { OnOk result
        ((r : Risk) → Contains risks.new.items r ↔ Contains risks.old.items r) }
    ensures rising { OnOk result (AreRising risks.new.items) }
{
    risks.sort()?;
    risks.dedup();
    Ok(())
}

fn are_disjoint(a: &[Risk], b: &[Risk]) -> bool
    requires a { AreRising a.now }
    requires b { AreRising b.now }
    ensures { IsTrue result ↔ AreDisjoint a.now b.now }
{
    let mut i = 0;
    let mut j = 0;
    while i < a.len() && j < b.len() {
        match a[i].cmp(&b[j]) {
            Ordering::Less => i += 1,
            Ordering::Equal => return false,
            Ordering::Greater => j += 1,
        }
    }
    true
}
