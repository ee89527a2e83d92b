//! Several books in one table, cleared and taken apart.
use super::shared::*;
use books::Books;
use keys::node::Node;
use std::alloc::Global;
use std::test::Fail;

// Two books of width 2 and a spare place, with calls on both in turn.
fn two_books(heap: Global) -> Result<Books<Node>, Fail> {
    let mut books = opened(heap, 2, 5, 2)?;
    for (r, call) in [
        (0, 1),
        (1, 1),
        (0, 2),
        (1, 7),
        (0, 2),
        (1, 7),
        (0, 2),
        (1, -7),
        (0, 3),
    ] {
        play(&mut books, r, &[call])?;
    }
    Ok(books)
}

#[test]
fn apart(rt: HostRuntime) -> Result<(), Fail> {
    let books = two_books(rt.alloc())?;
    check_state(&rt, &books, 0, (2, 5, 2))?;
    check_records(&rt, &books, 0, &[(2, 3, 0, 0), (3, 2, 0, 1)])?;
    check_bounds(
        &rt,
        &books,
        0,
        &[(1, 0, 2), (2, 3, 3), (3, 1, 2), (7, 0, 2)],
    )?;
    check_state(&rt, &books, 1, (2, 3, 1))?;
    check_records(&rt, &books, 1, &[(1, 1, 0, 0), (7, 2, 1, 0)])?;
    check_bounds(
        &rt,
        &books,
        1,
        &[(1, 1, 1), (2, 0, 1), (3, 0, 1), (7, 1, 1)],
    )
}

#[test]
fn cleared(rt: HostRuntime) -> Result<(), Fail> {
    let mut books = two_books(rt.alloc())?;
    books.clear();
    for r in 0..2 {
        check_state(&rt, &books, r, (0, 0, 0))?;
        check_records(&rt, &books, r, &[])?;
        check_bounds(&rt, &books, r, &[(1, 0, 0), (2, 0, 0), (7, 0, 0)])?;
    }
    play(&mut books, 1, &[2])?;
    check_state(&rt, &books, 0, (0, 0, 0))?;
    check_records(&rt, &books, 1, &[(2, 1, 0, 0)])
}

#[test]
fn taken_apart(rt: HostRuntime) -> Result<(), Fail> {
    let (table, fills) = two_books(rt.alloc())?.into_parts();
    assert_eq!(rt; (table.len(), fills.len()), (5, 2));
    let Ok(books) = Books::open(table, fills, 2) else {
        return Err(Fail::new("refused"));
    };
    check_state(&rt, &books, 0, (0, 0, 0))?;
    check_state(&rt, &books, 1, (0, 0, 0))
}
