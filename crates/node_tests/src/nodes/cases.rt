//! Nodes of the row: what no run of a mesh comes to, and what no script has the room for.

use crate::networks::{A, B, C};
use crate::nodes::driver::{Case, first_wrong};
use crate::nodes::inputs::{BEFORE, ON, Said};
use ason_base::codes::{FULL, PRIMARY, ROUTE, SET, TORN};
use ason_base::{CallState, Cause, Phase};
use std::test::Fail;

/// Each sends at last what stands behind what it is given, and shows what follows.
const CASES: &[Case] = &[
    // a Path whose route doesn't lead on, or that bears no label
    (
        B,
        &[(1, 1, &[Said::Path(C, &[], 1)])],
        &[(A, Some(ROUTE))],
        (0, None, None),
    ),
    (
        B,
        &[(1, 1, &[Said::Path(B, ON, 1)])],
        &[(A, Some(ROUTE))],
        (0, None, None),
    ),
    (
        B,
        &[(1, 1, &[Said::Path(C, &[(3, 2)], 1)])],
        &[(A, Some(ROUTE))],
        (0, None, None),
    ),
    (
        B,
        &[(1, 1, &[Said::Path(C, &[(2, 1)], 1)])],
        &[(A, Some(ROUTE))],
        (0, None, None),
    ),
    (
        B,
        &[(1, 1, &[Said::Path(C, &[(2, 7)], 1)])],
        &[(A, Some(ROUTE))],
        (0, None, None),
    ),
    (
        B,
        &[(1, 1, &[Said::Path(C, &[], 0)])],
        &[(A, Some(ROUTE))],
        (0, None, None),
    ),
    (
        B,
        &[(1, 1, &[Said::Path(C, ON, 0)])],
        &[(A, Some(SET))],
        (0, None, None),
    ),
    (
        B,
        &[(1, 1, &[Said::Path(B, &[], 0)])],
        &[(A, Some(SET))],
        (0, None, None),
    ),
    // a node of 4,096 legs, whatever the route
    (
        B,
        &[
            (1, 4096, &[Said::Path(C, ON, 1)]),
            (4097, 4097, &[Said::Path(C, &[], 1)]),
        ],
        &[(A, Some(FULL))],
        (4096, Some(Phase::Asked), None),
    ),
    // a backup whose primary has a link that isn't known
    (
        B,
        &[(1, 1, &[Said::Backup(&[(1, 7)], false)])],
        &[(A, Some(PRIMARY))],
        (0, None, None),
    ),
    // a Path of an LSP that has a leg
    (
        B,
        &[(1, 1, &[Said::Path(C, ON, 1), Said::Path(C, ON, 1)])],
        &[],
        (1, Some(Phase::Asked), None),
    ),
    // a Resv of another node than the next one, with a label that wasn't sent on, and at a leg that has its label
    (
        B,
        &[(1, 1, &[Said::Path(C, ON, 1), Said::Resv(A, 2, 1)])],
        &[],
        (1, Some(Phase::Asked), None),
    ),
    (
        B,
        &[(1, 1, &[Said::Path(C, ON, 1), Said::Resv(C, 2, 3)])],
        &[],
        (1, Some(Phase::Asked), None),
    ),
    (
        B,
        &[(
            1,
            1,
            &[
                Said::Path(C, ON, 1),
                Said::Resv(C, 2, 1),
                Said::Resv(C, 2, 1),
            ],
        )],
        &[],
        (1, Some(Phase::Live), None),
    ),
    // a refusal without Path_State_Removed, and one of a live leg
    (
        B,
        &[(1, 1, &[Said::Path(C, ON, 1), Said::PathErr(C, false)])],
        &[],
        (1, Some(Phase::Asked), None),
    ),
    (
        B,
        &[(
            1,
            1,
            &[
                Said::Path(C, ON, 1),
                Said::Resv(C, 2, 1),
                Said::PathErr(C, true),
            ],
        )],
        &[],
        (1, Some(Phase::Live), None),
    ),
    // a Path goes on, its Resv goes back, a PathTear is confirmed and goes on, and the leg goes with the answer
    (
        B,
        &[(1, 1, &[Said::Path(C, ON, 1)])],
        &[(C, None)],
        (1, Some(Phase::Asked), None),
    ),
    (
        B,
        &[(1, 1, &[Said::Path(C, ON, 1), Said::Resv(C, 2, 1)])],
        &[(A, None)],
        (1, Some(Phase::Live), None),
    ),
    (
        B,
        &[(
            1,
            1,
            &[Said::Path(C, ON, 1), Said::Resv(C, 2, 1), Said::Tear],
        )],
        &[(A, Some(TORN)), (C, None)],
        (1, Some(Phase::Closing), None),
    ),
    (
        B,
        &[(
            1,
            1,
            &[
                Said::Path(C, ON, 1),
                Said::Resv(C, 2, 1),
                Said::Tear,
                Said::PathErr(C, true),
            ],
        )],
        &[],
        (0, None, None),
    ),
    // a torn leg is torn once more, and its Resv comes once more
    (
        B,
        &[(
            1,
            1,
            &[
                Said::Path(C, ON, 1),
                Said::Resv(C, 2, 1),
                Said::Tear,
                Said::Tear,
                Said::Resv(C, 2, 1),
            ],
        )],
        &[],
        (1, Some(Phase::Closing), None),
    ),
    // the activation of a backup is taken back before it has ended
    (
        B,
        &[(
            1,
            1,
            &[
                Said::Backup(BEFORE, false),
                Said::Resv(C, 2, 1),
                Said::Backup(BEFORE, true),
            ],
        )],
        &[(C, None)],
        (1, Some(Phase::Armed), None),
    ),
    (
        B,
        &[(
            1,
            1,
            &[
                Said::Backup(BEFORE, false),
                Said::Resv(C, 2, 1),
                Said::Backup(BEFORE, true),
                Said::Backup(BEFORE, false),
            ],
        )],
        &[(C, None)],
        (1, Some(Phase::Held), None),
    ),
    // an ingress that has given out 65,535 numbers, one of them to a working LSP and the others to backups that were refused
    (
        A,
        &[
            (1, 1, &[Said::Setup, Said::Resv(B, 1, 1)]),
            (2, 65535, &[Said::Protect, Said::BackupErr]),
            (1, 1, &[Said::Protect]),
        ],
        &[],
        (1, Some(Phase::Live), Some((CallState::Bare, Cause::Spent))),
    ),
    (
        A,
        &[
            (1, 1, &[Said::Setup, Said::Resv(B, 1, 1)]),
            (2, 65535, &[Said::Protect, Said::BackupErr]),
            (2, 2, &[Said::Setup]),
        ],
        &[],
        (
            1,
            Some(Phase::Live),
            Some((CallState::Blocked, Cause::Spent)),
        ),
    ),
];

#[test]
fn nodes_by_hand(rt: HostRuntime) -> Result<(), Fail> {
    assert_eq!(rt; first_wrong(rt.alloc(), CASES)?, None);
    Ok(())
}
