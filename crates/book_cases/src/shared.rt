//! What the cases share: books to work on, lists of calls, and answers as numbers.
use books::fill::Fill;
use books::{Books, OpenRefused};
use keys::key::Key;
use keys::node::Node;
use keys::tag::Tag;
use places::place::Place;
use refusals::Refusal;
use std::alloc::{AllocError, Global};
use std::process::Abort;
use std::test::Fail;

// A kind of key with one key for each number, in the order of the numbers.
pub trait Numbered: Key + Clone {
    fn numbered(n: u32) -> Self;

    fn number(self) -> u32;
}

impl Numbered for Node {
    fn numbered(n: u32) -> Node {
        Node { number: n }
    }

    fn number(self) -> u32 {
        self.number
    }
}

// Two codes to a station.
impl Numbered for Tag {
    fn numbered(n: u32) -> Tag {
        Tag {
            station: n / 2,
            code: (n % 2) as u16,
        }
    }

    fn number(self) -> u32 {
        self.station
            .wrapping_mul(2)
            .wrapping_add(u32::from(self.code))
    }
}

// Opens `count` books of that width in a table of `places`.
pub(crate) fn open<K: Numbered>(
    heap: Global,
    count: usize,
    places: usize,
    width: usize,
) -> Result<Result<Books<K>, OpenRefused<K>>, AllocError> {
    let table = vec![in heap; Place::vacant(K::numbered(0)); places]?;
    let fills = vec![in heap; Fill::empty(); count]?;
    Ok(Books::open(table, fills, width))
}

pub(crate) fn opened<K: Numbered>(
    heap: Global,
    count: usize,
    places: usize,
    width: usize,
) -> Result<Books<K>, Fail> {
    match open(heap, count, places, width)? {
        Ok(books) => Ok(books),
        Err(refused) => Err(Fail::new(refused.refusal.number())),
    }
}

// Plays the calls on book r, up to one that is refused: n puts the key of number n, -n takes it.
pub(crate) fn play<K: Numbered>(
    books: &mut Books<K>,
    r: usize,
    calls: &[i32],
) -> Result<(), Refusal> {
    for call in calls {
        let key = K::numbered(call.unsigned_abs());
        if *call > 0 {
            books.put(r, key)?;
        } else {
            books.take(r, key)?;
        }
    }
    Ok(())
}

// The number of a refusal, 0 for what was accepted.
pub(crate) fn told<T: Drop>(answer: Result<T, Refusal>) -> u8 {
    match answer {
        Ok(_) => 0,
        Err(refusal) => refusal.number(),
    }
}

// The records of book r are exactly these, by position and one by one: number, count in, count out and slack.
pub(crate) fn check_records<K: Numbered>(
    rt: &impl Abort,
    books: &Books<K>,
    r: usize,
    wanted: &[(u32, u32, u32, u32)],
) -> Result<(), Fail> {
    assert_eq!(rt; books.len(r)?, wanted.len());
    for (i, row) in wanted.iter().enumerate() {
        let record = books.record(r, i)?.ok_or("no record")?;
        let found = (record.key.number(), record.ins, record.outs, record.slack);
        assert_eq!(rt; found, *row);
    }
    assert!(rt; books.record(r, wanted.len())?.is_none());
    assert_eq!(rt; books.records(r)?.count(), wanted.len());
    for (record, row) in books.records(r)?.zip(wanted) {
        let found = (record.key.number(), record.ins, record.outs, record.slack);
        assert_eq!(rt; found, *row);
    }
    Ok(())
}

// Each key of book r has these bounds: number, low and high.
pub(crate) fn check_bounds<K: Numbered>(
    rt: &impl Abort,
    books: &Books<K>,
    r: usize,
    wanted: &[(u32, u32, u32)],
) -> Result<(), Fail> {
    for (n, low, high) in wanted {
        assert_eq!(rt; books.bounds(r, K::numbered(*n))?, (*low, *high));
    }
    Ok(())
}

// Book r has this many records, accepted puts, and this ceiling.
pub(crate) fn check_state<K: Numbered>(
    rt: &impl Abort,
    books: &Books<K>,
    r: usize,
    wanted: (usize, u32, u32),
) -> Result<(), Fail> {
    assert_eq!(rt; (books.len(r)?, books.total(r)?, books.ceiling(r)?), wanted);
    Ok(())
}
