//! Readings as values and back, at both ends of a scale.
use frames::scale::{reading_of, value_of};
use std::test::Fail;

#[test]
fn inside(rt: HostRuntime) -> Result<(), Fail> {
    for (reading, base, top, value) in [
        (-1, -4, 3, 3),
        (-4, -4, 3, 0),
        (-3, -4, 3, 1),
        (0, 0, 65_535, 0),
        (32_767, 0, 65_535, 32_767),
        (-32_768, -32_768, 65_535, 0),
        (-1, -32_768, 65_535, 32_767),
        (0, -32_768, 65_535, 32_768),
        (32_767, -32_768, 65_535, 65_535),
        (32_767, 32_767, 0, 0),
        (32_767, 32_764, 3, 3),
    ] {
        assert_eq!(rt; value_of(reading, base, top)?, value);
        assert_eq!(rt; reading_of(value, base), Some(reading));
    }
    Ok(())
}

#[test]
fn outside(rt: HostRuntime) {
    for (reading, base, top) in [
        (-5, -4, 3),
        (0, -4, 3),
        (-32_768, -4, 3),
        (32_767, -4, 3),
        (-1, 0, 65_535),
        (-32_768, 0, 65_535),
        (-32_768, 32_767, 4_294_967_295),
        (32_767, -32_768, 65_534),
        (1, 0, 0),
    ] {
        let answer = value_of(reading, base, top);
        assert_eq!(rt; answer.map_err(|refusal| refusal.number()), Err(7));
    }
}

// The last value that has a reading, and those that have none.
#[test]
fn readings(rt: HostRuntime) {
    for (value, base, reading) in [
        (3, 32_764, Some(32_767)),
        (4, 32_764, None),
        (4_294_967_295, 32_764, None),
        (32_767, 0, Some(32_767)),
        (32_768, 0, None),
        (65_535, -32_768, Some(32_767)),
        (65_536, -32_768, None),
        (4_294_967_295, -32_768, None),
    ] {
        assert_eq!(rt; reading_of(value, base), reading);
    }
}
