//! Kinds of frames and their first bytes, and the words for a change.
use frames::head::{Change, Kind};
use std::test::Fail;

#[test]
fn kinds(rt: HostRuntime) -> Result<(), Fail> {
    for (byte, kind) in [
        (1, Kind::Readings(Change::Added)),
        (2, Kind::Readings(Change::Retracted)),
        (3, Kind::Keys(Change::Added)),
        (4, Kind::Keys(Change::Retracted)),
        (5, Kind::Day),
    ] {
        assert_eq!(rt; Kind::of(&[byte])?, kind);
        assert_eq!(rt; u8::from(kind), byte);
    }
    for byte in [0, 6, 255] {
        let answer = Kind::of(&[byte, 1]);
        assert_eq!(rt; answer.map_err(|refusal| refusal.number()), Err(3));
    }
    let answer = Kind::of(&[]);
    assert_eq!(rt; answer.map_err(|refusal| refusal.number()), Err(2));
    Ok(())
}

#[test]
fn words(rt: HostRuntime) -> Result<(), Fail> {
    let heap = rt.alloc();
    assert_eq!(rt; Change::Added.to_string(heap)?.as_str(), "added");
    assert_eq!(rt; Change::Retracted.to_string(heap)?.as_str(), "retracted");
    Ok(())
}
