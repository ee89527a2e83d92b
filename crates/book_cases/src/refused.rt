//! Refusals, and what they leave.
use super::shared::*;
use keys::node::Node;
use keys::tag::Tag;
use refusals::Refusal;
use std::alloc::Global;
use std::process::Abort;
use std::test::Fail;

#[test]
fn numbers(rt: HostRuntime) {
    assert_eq!(rt;
        [
            Refusal::Absent.number(),
            Refusal::Width.number(),
            Refusal::Short.number(),
            Refusal::Row.number(),
            Refusal::Full.number(),
        ],
        [9, 11, 14, 20, 22]
    );
}

// The number that a refused opening tells, and how many fills and places come back.
fn refused_opening(
    heap: Global,
    count: usize,
    places: usize,
    width: usize,
) -> Result<(u8, usize, usize), Fail> {
    match open::<Node>(heap, count, places, width)? {
        Ok(_) => Err(Fail::new("opened")),
        Err(refused) => Ok((
            refused.refusal.number(),
            refused.fills.len(),
            refused.table.len(),
        )),
    }
}

#[test]
fn openings(rt: HostRuntime) -> Result<(), Fail> {
    let heap = rt.alloc();
    for (number, count, places, width) in [
        (11, 1, 4, 0),
        (11, 1, 4, 1),
        (11, 1, 1025, 1025),
        (11, 2, 0, 1),
        (14, 1, 1, 2),
        (14, 2, 3, 2),
        (14, 1, 1023, 1024),
    ] {
        assert_eq!(rt;
            refused_opening(heap, count, places, width)?,
            (number, count, places)
        );
    }
    for (count, places, width) in [(1, 2, 2), (2, 5, 2), (1, 1024, 1024), (0, 0, 2)] {
        let books = opened::<Node>(heap, count, places, width)?;
        assert_eq!(rt; (books.count(), books.width()), (count, width));
    }
    Ok(())
}

// A take of a key that the book holds nothing of.
fn takes_refused<K: Numbered>(rt: &impl Abort, heap: Global) -> Result<(), Fail> {
    let mut books = opened::<K>(heap, 1, 2, 2)?;
    assert_eq!(rt; told(play(&mut books, 0, &[-1])), 9);
    check_state(rt, &books, 0, (0, 0, 0))?;
    check_bounds(rt, &books, 0, &[(1, 0, 0)])?;
    play(&mut books, 0, &[1, -1])?;
    for call in [-1, -2] {
        assert_eq!(rt; told(play(&mut books, 0, &[call])), 9);
        check_state(rt, &books, 0, (1, 1, 0))?;
        check_records(rt, &books, 0, &[(1, 1, 1, 0)])?;
    }
    Ok(())
}

#[test]
fn absent(rt: HostRuntime) -> Result<(), Fail> {
    takes_refused::<Node>(&rt, rt.alloc())?;
    takes_refused::<Tag>(&rt, rt.alloc())
}

#[test]
fn no_such_book(rt: HostRuntime) -> Result<(), Fail> {
    let mut books = opened::<Node>(rt.alloc(), 1, 4, 2)?;
    let key = Node { number: 1 };
    play(&mut books, 0, &[1])?;
    for r in [1, 2, usize::MAX] {
        let answers = [
            told(books.put(r, key)),
            told(books.take(r, key)),
            told(books.bounds(r, key)),
            told(books.ceiling(r)),
            told(books.total(r)),
            told(books.len(r)),
            told(books.record(r, 0)),
            told(books.records(r)),
        ];
        assert_eq!(rt; answers, [20; 8]);
    }
    check_state(&rt, &books, 0, (1, 1, 0))?;
    check_records(&rt, &books, 0, &[(1, 1, 0, 0)])
}

// A book takes 16,777,215 puts; one more leaves it as it was, and takes go on.
#[test]
fn full(rt: HostRuntime) -> Result<(), Fail> {
    let mut books = opened::<Node>(rt.alloc(), 1, 2, 2)?;
    for _ in 0..16_777_215 {
        books.put(0, Node { number: 1 })?;
    }
    for call in [1, 2] {
        assert_eq!(rt; told(play(&mut books, 0, &[call])), 22);
        check_state(&rt, &books, 0, (1, 16_777_215, 0))?;
        check_records(&rt, &books, 0, &[(1, 16_777_215, 0, 0)])?;
    }
    play(&mut books, 0, &[-1])?;
    check_bounds(&rt, &books, 0, &[(1, 16_777_214, 16_777_214)])
}
