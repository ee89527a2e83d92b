//! Frames of readings, accepted with their samples or refused, at every edge; and the day frame.
use day_frame::{Summary, read, write};
use frames::head::{Allowed, Change};
use frames::readings::Readings;
use std::process::Abort;
use std::test::Fail;

// The frame is accepted, and its samples are exactly these.
fn check_samples(
    rt: &impl Abort,
    frame: &[u8],
    change: Change,
    wanted: &[Option<i16>],
) -> Result<(), Fail> {
    let mut samples = Readings::check(frame, Allowed::BOTH)?;
    assert!(rt; samples.change() == change);
    for sample in wanted {
        assert!(rt; samples.next() == Some(*sample));
    }
    assert!(rt; samples.next().is_none());
    Ok(())
}

// The frame is refused with this number.
fn check_refused(rt: &impl Abort, frame: &[u8], allowed: Allowed, number: u8) {
    let refusal = Readings::check(frame, allowed).err();
    assert_eq!(rt; refusal.map(|refusal| refusal.number()), Some(number));
}

#[test]
fn accepted(rt: HostRuntime) -> Result<(), Fail> {
    check_samples(&rt, &[1, 2, 0], Change::Added, &[None, None])?;
    check_samples(&rt, &[1, 1, 1, 0, 0], Change::Added, &[Some(0)])?;
    check_samples(&rt, &[2, 1, 1, 255, 255], Change::Retracted, &[Some(-1)])?;
    check_samples(&rt, &[2, 1, 1, 128, 0], Change::Retracted, &[Some(-32_768)])?;
    check_samples(&rt, &[1, 2, 2, 1, 44], Change::Added, &[None, Some(300)])?;
    check_samples(
        &rt,
        &[1, 7, 123, 0, 0, 0, 1, 0, 1, 0, 2, 0, 3, 0, 3],
        Change::Added,
        &[Some(0), Some(1), None, Some(1), Some(2), Some(3), Some(3)],
    )?;
    check_samples(
        &rt,
        &[1, 8, 128, 0, 5],
        Change::Added,
        &[None, None, None, None, None, None, None, Some(5)],
    )?;
    check_samples(
        &rt,
        &[1, 9, 0, 1, 0, 6],
        Change::Added,
        &[None, None, None, None, None, None, None, None, Some(6)],
    )
}

#[test]
fn refused(rt: HostRuntime) {
    check_refused(&rt, &[], Allowed::BOTH, 2);
    check_refused(&rt, &[0], Allowed::BOTH, 3);
    check_refused(&rt, &[3, 1, 0], Allowed::BOTH, 3);
    check_refused(&rt, &[1], Allowed::BOTH, 4);
    check_refused(&rt, &[1, 0], Allowed::BOTH, 5);
    check_refused(&rt, &[1, 65], Allowed::BOTH, 5);
    check_refused(&rt, &[1, 64, 0, 0, 0, 0, 0, 0, 0], Allowed::BOTH, 4);
    check_refused(&rt, &[1, 9, 255], Allowed::BOTH, 4);
    check_refused(&rt, &[1, 3, 15], Allowed::BOTH, 6);
    check_refused(&rt, &[1, 9, 0, 2], Allowed::BOTH, 6);
    check_refused(&rt, &[1, 63, 0, 0, 0, 0, 0, 0, 0, 128], Allowed::BOTH, 6);
    check_refused(&rt, &[1, 1, 1, 0], Allowed::BOTH, 4);
    check_refused(&rt, &[1, 1, 1, 0, 0, 0], Allowed::BOTH, 4);
}

// A kind that is not allowed now is refused before its count is looked at.
#[test]
fn not_allowed(rt: HostRuntime) {
    let adds = Allowed {
        added: true,
        retracted: false,
    };
    let retracts = Allowed {
        added: false,
        retracted: true,
    };
    check_refused(&rt, &[2], adds, 3);
    check_refused(&rt, &[1], retracts, 3);
    check_refused(&rt, &[1, 0], adds, 5);
    check_refused(&rt, &[2, 0], retracts, 5);
}

// All of 63 samples missing, and of 64.
#[test]
fn most(rt: HostRuntime) -> Result<(), Fail> {
    for n in [63, 64] {
        let frame = [1, n, 0, 0, 0, 0, 0, 0, 0, 0];
        let mut missing = 0u8;
        for sample in Readings::check(&frame, Allowed::BOTH)? {
            assert_eq!(rt; sample, None);
            missing = missing.wrapping_add(1);
        }
        assert_eq!(rt; missing, n);
    }
    Ok(())
}

#[test]
fn day_frame_written_and_read(rt: HostRuntime) -> Result<(), Fail> {
    let summary = Summary {
        live: 4,
        adds: 6,
        first: 1,
        second: 1,
        third: 2,
    };
    let frame = [5, 0, 0, 0, 4, 0, 0, 0, 6, 0, 1, 0, 1, 0, 2];
    assert!(rt; write(summary) == frame);
    assert!(rt; read(&frame)? == summary);
    Ok(())
}
