//! Lists of calls and what they leave, at both kinds of key.
use super::shared::*;
use keys::node::Node;
use keys::tag::Tag;
use std::alloc::Global;
use std::process::Abort;
use std::test::Fail;

// A list of calls on one book, all accepted, and what it leaves: records, accepted puts, ceiling and bounds.
#[derive(Drop)]
struct Case<'a> {
    width: usize,
    calls: &'a [i32],
    records: &'a [(u32, u32, u32, u32)],
    total: u32,
    ceiling: u32,
    bounds: &'a [(u32, u32, u32)],
}

fn walk<K: Numbered>(rt: &impl Abort, heap: Global, case: &Case<'_>) -> Result<(), Fail> {
    let mut books = opened::<K>(heap, 1, case.width, case.width)?;
    play(&mut books, 0, case.calls)?;
    check_records(rt, &books, 0, case.records)?;
    check_state(
        rt,
        &books,
        0,
        (case.records.len(), case.total, case.ceiling),
    )?;
    check_bounds(rt, &books, 0, case.bounds)
}

fn walk_both(rt: &impl Abort, heap: Global, cases: &[Case<'_>]) -> Result<(), Fail> {
    for case in cases {
        walk::<Node>(rt, heap, case)?;
        walk::<Tag>(rt, heap, case)?;
    }
    Ok(())
}

#[test]
fn worked_examples(rt: HostRuntime) -> Result<(), Fail> {
    walk_both(
        &rt,
        rt.alloc(),
        &[
            Case {
                width: 2,
                calls: &[1, 1, 1, 3, -1, 2, 1, -3, -2],
                records: &[(1, 4, 1, 0), (2, 2, 1, 1)],
                total: 6,
                ceiling: 2,
                bounds: &[(1, 3, 3), (2, 0, 1), (3, 0, 2)],
            },
            Case {
                width: 2,
                calls: &[1, 1, 2, 2, 3, -2, -2, 1],
                records: &[(1, 3, 0, 2), (3, 3, 0, 2)],
                total: 6,
                ceiling: 3,
                bounds: &[(1, 1, 3), (2, 0, 3), (3, 1, 3)],
            },
        ],
    )
}

// Lists at which the deletion as it was published breaks its bound.
#[test]
fn published_deletion(rt: HostRuntime) -> Result<(), Fail> {
    walk_both(
        &rt,
        rt.alloc(),
        &[
            Case {
                width: 2,
                calls: &[1, 2, 3, -2, 1],
                records: &[(1, 2, 0, 1), (3, 2, 0, 1)],
                total: 4,
                ceiling: 2,
                bounds: &[(1, 1, 2), (2, 0, 2), (3, 1, 2)],
            },
            Case {
                width: 4,
                calls: &[1, 2, 3, 4, 5, -2, 1, 6],
                records: &[(1, 2, 0, 1), (4, 1, 0, 0), (5, 2, 0, 1), (6, 2, 0, 1)],
                total: 7,
                ceiling: 1,
                bounds: &[(1, 1, 2), (2, 0, 1), (3, 0, 1), (4, 1, 1), (6, 1, 2)],
            },
            Case {
                width: 8,
                calls: &[1, 2, 3, 4, 5, 6, 7, 8, 9, 1, -2, 10, 1, -3, 11, 1, -4, 12],
                records: &[
                    (1, 4, 0, 1),
                    (6, 1, 0, 0),
                    (7, 1, 0, 0),
                    (8, 1, 0, 0),
                    (9, 2, 0, 1),
                    (10, 2, 0, 1),
                    (11, 2, 0, 1),
                    (12, 2, 0, 1),
                ],
                total: 15,
                ceiling: 1,
                bounds: &[(1, 3, 4), (2, 0, 1), (5, 0, 1), (6, 1, 1), (12, 1, 2)],
            },
        ],
    )
}

// Of two records with the least count in the one with the least key leaves, whichever came first.
#[test]
fn ties(rt: HostRuntime) -> Result<(), Fail> {
    let after = Case {
        width: 2,
        calls: &[5, 4, 6],
        records: &[(5, 1, 0, 0), (6, 2, 0, 1)],
        total: 3,
        ceiling: 1,
        bounds: &[(4, 0, 1), (5, 1, 1), (6, 1, 2)],
    };
    let other = Case {
        calls: &[4, 5, 6],
        ..after
    };
    walk_both(&rt, rt.alloc(), &[after, other])
}
