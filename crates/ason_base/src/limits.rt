//! The limits of the program. Those of a node's rules stand in `mesh_rules`, those of a plan's text in `plan_reader`.

/// The most nodes that a network has.
pub const MOST_NODES: usize = 64;

/// The most links that a network has.
pub const MOST_LINKS: usize = 256;

/// The most SRLGs that a link has.
pub const MOST_SRLGS: usize = 16;

/// The most labels that a fibre has.
pub const MOST_LABELS: u8 = 80;

/// The greatest metric of a link.
pub const MOST_METRIC: u32 = 65_535;

/// The most steps of a route that a message carries.
pub const MOST_STEPS: usize = 64;

/// The most events of a node, each of which is a line of its log.
pub const MOST_EVENTS: u64 = 50_000;

/// The most frames that stand in a ring between two nodes.
pub const MOST_FRAMES: usize = 256;

/// The most that a line counts on to the frame that it names.
pub const MOST_AHEAD: u32 = 65_535;

/// The most calls that a plan sets up.
pub const MOST_CALLS: usize = 4_096;

/// The most threads of a run.
pub const MOST_WORKERS: usize = 16;

/// The most turns that a node makes in a round.
pub const MOST_TURNS: u32 = 64;
