//! Error codes (RFC 2205, appendix B; RFC 3209, section 7.3; RFC 3473, section 4.2).

/// An error code and its value, as an ERROR_SPEC object bears them.
#[derive(Clone, Copy, PartialEq, Eq, Drop)]
pub struct ErrCode {
    pub code: u8,
    pub value: u16,
}

/// Another LSP is switched on the wavelength that a backup was to be switched on.
pub const BUSY: ErrCode = ErrCode {
    code: 1,
    value: 0x8001,
};

/// A node has as many legs as it keeps.
pub const FULL: ErrCode = ErrCode {
    code: 1,
    value: 0x8002,
};

/// The incoming fibre is known to be down.
pub const DOWN: ErrCode = ErrCode {
    code: 1,
    value: 0x8003,
};

/// A torn LSP is gone from the next node on.
pub const TORN: ErrCode = ErrCode {
    code: 1,
    value: 0x8004,
};

/// No label is left for the LSP (RFC 3473: unacceptable label value).
pub const LABEL: ErrCode = ErrCode { code: 24, value: 6 };

/// The label set meets no usable label (RFC 3473: label set).
pub const SET: ErrCode = ErrCode {
    code: 24,
    value: 11,
};

/// The route doesn't lead on from here.
pub const ROUTE: ErrCode = ErrCode {
    code: 24,
    value: 0x8001,
};

/// A link of the primary route isn't known here.
pub const PRIMARY: ErrCode = ErrCode {
    code: 24,
    value: 0x8002,
};

/// Notify: a fibre of the LSP is down.
pub const FIBRE_DOWN: ErrCode = ErrCode {
    code: 25,
    value: 0x8001,
};

/// Notify: a fibre of the LSP is up again.
pub const FIBRE_UP: ErrCode = ErrCode {
    code: 25,
    value: 0x8002,
};
