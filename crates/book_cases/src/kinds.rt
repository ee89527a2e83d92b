//! Both kinds of key: their order and their bytes.
use keys::key::Key;
use keys::node::Node;
use keys::tag::Tag;
use places::place::Place;
use std::alloc::Global;
use std::fmt::Debug;
use std::process::Abort;
use std::test::Fail;

// The first key is before the second, and no other way.
fn check_order<K: Key>(rt: &impl Abort, low: K, high: K) {
    assert_eq!(rt;
        (
            low.is_before(high),
            high.is_before(low),
            low.is_before(low),
            high.is_before(high),
        ),
        (true, false, false, false)
    );
}

#[test]
fn order(rt: HostRuntime) {
    for (low, high) in [(0, 1), (255, 256), (65_536, 4_294_967_295)] {
        check_order(&rt, Node { number: low }, Node { number: high });
    }
    for (low, high) in [
        ((0, 0), (0, 1)),
        ((7, 1), (7, 258)),
        ((1, 65_535), (2, 0)),
        ((255, 9), (4_294_967_295, 3)),
    ] {
        let low = Tag {
            station: low.0,
            code: low.1,
        };
        let high = Tag {
            station: high.0,
            code: high.1,
        };
        check_order(&rt, low, high);
    }
}

// These are the key's bytes, and no other length is written or read.
fn check_bytes<K: Key + PartialEq + Debug>(
    rt: &impl Abort,
    heap: Global,
    key: K,
    bytes: &[u8],
) -> Result<(), Fail> {
    assert_eq!(rt; K::BYTES, bytes.len());
    for n in 0..9 {
        let mut to = vec![in heap; 170u8; n]?;
        let fits = n == bytes.len();
        assert_eq!(rt; key.write(&mut to).is_ok(), fits);
        if fits {
            assert_eq!(rt; to.as_slice(), bytes);
            assert_eq!(rt; K::read(&to), Some(key));
        } else {
            for b in to.iter() {
                assert_eq!(rt; *b, 170);
            }
            assert_eq!(rt; K::read(&to), None);
        }
    }
    Ok(())
}

#[test]
fn bytes(rt: HostRuntime) -> Result<(), Fail> {
    let heap = rt.alloc();
    check_bytes(&rt, heap, Node { number: 258 }, &[0, 0, 1, 2])?;
    check_bytes(
        &rt,
        heap,
        Node {
            number: 4_278_190_335,
        },
        &[255, 0, 0, 255],
    )?;
    check_bytes(
        &rt,
        heap,
        Tag {
            station: 7,
            code: 1,
        },
        &[0, 0, 0, 7, 0, 1],
    )?;
    check_bytes(
        &rt,
        heap,
        Tag {
            station: 16_909_060,
            code: 65_280,
        },
        &[1, 2, 3, 4, 255, 0],
    )
}

// A place of a book of nodes takes 32 bytes.
#[test]
fn place_size(rt: HostRuntime) {
    assert_eq!(rt; std::mem::size_of::<Place<Node>>(), 32);
}
