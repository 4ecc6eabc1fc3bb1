//! Claims: which leg has a label, and how.

ghost use Rattle.std.specs.{Prelude.{◌≡◌, ◌&&◌, IfNone, IfSome}, List.list_any};
ghost use Rattle.link_owner.specs.Claims.{IsLeastClaim, NoClaim, barring, has_so, is_backup, is_lesser, is_of_lsp, is_sought, is_working};

use ason_base::{Label, Lsp};

/// How a leg has its label.
#[derive(Clone, Copy, Drop)]
pub enum ClaimKind {
    /// As a working leg, alone.
    Working,
    /// As a backup leg, maybe with other backups.
    Backup,
}

/// A leg's claim of a label.
#[derive(Clone, Copy, Drop)]
pub struct Claim {
    pub label: Label,
    pub lsp: Lsp,
    pub kind: ClaimKind,
}

/// Why a label isn't given.
#[derive(Clone, Copy, Drop)]
pub enum ClaimFault {
    /// This LSP's leg has it.
    Held(Lsp),
    OutOfMemory,
}

/// Which claims of a label are looked for.
#[derive(Clone, Copy, Drop)]
pub enum Sought {
    Any,
    AnyWorking,
}

/// Which claims bar a leg that is to have their label so.
pub(crate) fn barring(kind: ClaimKind) -> Sought
    ensures { result ≡ barring kind }
{
    match kind {
        ClaimKind::Working => Sought::Any,
        ClaimKind::Backup => Sought::AnyWorking,
    }
}

fn is_working(kind: ClaimKind) -> bool
    ensures { result ≡ is_working kind }
{
    match kind {
        ClaimKind::Working => true,
        ClaimKind::Backup => false,
    }
}

fn is_backup(kind: ClaimKind) -> bool
    ensures { result ≡ is_backup kind }
{
    match kind {
        ClaimKind::Working => false,
        ClaimKind::Backup => true,
    }
}

pub(crate) fn is_of_lsp(claim: &Claim, label: Label, lsp: Lsp) -> bool
    ensures { result ≡ is_of_lsp label lsp claim.now }
{
    claim.label.number() == label.number() && claim.lsp == lsp
}

fn is_sought(claim: &Claim, label: Label, sought: Sought) -> bool
    ensures { result ≡ is_sought sought label claim.now }
{
    claim.label.number() == label.number()
        && match sought {
            Sought::Any => true,
            Sought::AnyWorking => is_working(claim.kind),
        }
}

/// Whether a working leg has the label.
pub(crate) fn has_working(claims: &[Claim], label: Label) -> bool
    ensures { result ≡ list_any (has_so is_working label) claims.now }
{
    claims.iter().any(|claim| claim.label.number() == label.number() && is_working(claim.kind))
}

/// Whether a backup leg has the label.
pub(crate) fn has_backup(claims: &[Claim], label: Label) -> bool
    ensures { result ≡ list_any (has_so is_backup label) claims.now }
{
    claims.iter().any(|claim| claim.label.number() == label.number() && is_backup(claim.kind))
}

fn is_lesser(lsp: Lsp, least: Option<Lsp>) -> bool
    ensures { result ≡ is_lesser lsp least }
{
    match least {
        None => true,
        Some(least) => lsp < least,
    }
}

// Whether the claim is looked for, and its LSP below the least so far.
fn is_found(claim: &Claim, label: Label, sought: Sought, least: Option<Lsp>) -> bool
    ensures { result ≡ (is_sought sought label claim.now && is_lesser claim.now.lsp least) }
{
    is_sought(claim, label, sought) && is_lesser(claim.lsp, least)
}

/// The least LSP of the label's claims that are looked for.
pub(crate) fn least_lsp(claims: &[Claim], label: Label, sought: Sought) -> Option<Lsp>
    ensures none { IfNone result (NoClaim (is_sought sought label) claims.now) }
    ensures least { IfSome result (IsLeastClaim (is_sought sought label) claims.now) }
{
    let mut least = None;
    for claim in claims {
        if is_found(claim, label, sought, least) {
            least = Some(claim.lsp);
        }
    }
    least
}
