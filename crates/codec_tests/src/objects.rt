//! Which labels a LABEL_SET names, and the objects that no message is written with.

use ason_base::{ErrCode, Label, LabelSet, NodeId};
use rsvp_objects::{ErrorSpec, LabelSetObject, read_label_set, write_error_ipv4, write_label_set};
use std::alloc::Global;
use std::test::Fail;

/// The body of a LABEL_SET, whether it includes, and the least and the greatest label that it names.
type SetCase = (&'static [u8], bool, u8, u8);

/// Each action, with what it names of 1 to 80.
const LABEL_SETS: &[SetCase] = &[
    (&[0, 0, 0, 2, 0, 0, 0, 2, 0, 0, 0, 3], true, 2, 3),
    (
        &[0, 0, 0, 2, 0, 0, 0, 0, 0, 0, 0, 81, 1, 0, 0, 5, 0, 0, 0, 5],
        true,
        5,
        5,
    ),
    (&[1, 0, 0, 2, 0, 0, 0, 80, 0, 0, 0, 79], false, 79, 80),
    (&[1, 0, 0, 2, 0, 0, 0, 0], false, 1, 0),
    (&[2, 0, 0, 2, 0, 0, 0, 1, 0, 0, 0, 4], true, 1, 4),
    (&[2, 0, 0, 2, 0, 0, 0, 0, 0, 0, 0, 4], true, 1, 4),
    (&[2, 0, 0, 2, 0, 0, 0, 77, 0, 0, 0, 0], true, 77, 80),
    (&[2, 0, 0, 2, 0, 0, 0, 70, 0, 1, 0, 0], true, 70, 80),
    (&[2, 0, 0, 2, 0, 0, 0, 81, 0, 0, 0, 90], true, 1, 0),
    (&[3, 0, 0, 2, 0, 0, 0, 2, 0, 0, 0, 4], false, 2, 4),
    (&[3, 0, 0, 2, 0, 0, 0, 0, 0, 0, 0, 0], false, 1, 80),
];

/// Another action, a range without an end, one without both, one with three numbers, and a list without a number.
const NO_LABEL_SETS: &[&[u8]] = &[
    &[4, 0, 0, 2, 0, 0, 0, 2, 0, 0, 0, 3],
    &[2, 0, 0, 2, 0, 0, 0, 2],
    &[3, 0, 0, 2],
    &[2, 0, 0, 2, 0, 0, 0, 2, 0, 0, 0, 3, 0, 0, 0, 4],
    &[0, 0, 0, 2],
];

// Whether these are just the labels from the one to the other.
fn are(labels: &LabelSet, low: u8, high: u8) -> bool {
    (1..81u8).all(|n| match Label::new(n) {
        Some(label) => labels.has(label) == (low <= n && n <= high),
        None => false,
    })
}

fn is_read(case: &SetCase) -> bool {
    let (body, include, low, high) = case;
    match read_label_set(body) {
        Some(object) => object.include == *include && are(&object.labels, *low, *high),
        None => false,
    }
}

#[test]
fn label_sets(rt: HostRuntime) {
    assert_eq!(rt; LABEL_SETS.iter().position(|case| !is_read(case)), None);
    assert!(rt;
        NO_LABEL_SETS
            .iter()
            .all(|body| read_label_set(body).is_none())
    );
}

// An empty set that excludes, and an ERROR_SPEC without a link in the form of RFC 2205.
fn others(alloc: Global) -> Result<Vec<u8>, Fail> {
    let set = LabelSetObject {
        include: false,
        labels: LabelSet::empty(),
    };
    let error = ErrorSpec {
        node: NodeId(1),
        flags: 4,
        code: ErrCode { code: 24, value: 6 },
        link: None,
    };
    let mut out = Vec::new(alloc);
    write_label_set(&mut out, &set)?;
    write_error_ipv4(&mut out, &error)?;
    Ok(out)
}

#[test]
fn objects_of_no_message(rt: HostRuntime) -> Result<(), Fail> {
    let expected = [
        0, 12, 36, 1, 1, 0, 0, 2, 0, 0, 0, 0, 0, 12, 6, 1, 0, 0, 0, 1, 4, 24, 0, 6,
    ];
    assert!(rt; others(rt.alloc())?.as_slice() == expected.as_slice());
    Ok(())
}
