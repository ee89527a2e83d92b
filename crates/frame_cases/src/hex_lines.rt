//! Lines of digits as bytes and back, and what a refusal leaves.
use hex_line::{decode, encode};
use std::process::Abort;
use std::test::Fail;

const DIGITS: [u8; 16] = *b"0123456789abcdef";

// The line gives these bytes; of a buffer of 170s nothing else is written.
fn check_line(rt: &impl Abort, line: &[u8], bytes: &[u8]) -> Result<(), Fail> {
    let mut to = [170; 242];
    assert_eq!(rt; decode(line, &mut to)?, bytes.len());
    for (i, b) in to.iter().enumerate() {
        assert_eq!(rt; Some(b), bytes.get(i).or(Some(&170)), "{}", i);
    }
    Ok(())
}

// The line gives 1, and nothing is written.
fn check_refused(rt: &impl Abort, line: &[u8]) {
    let mut to = [170; 242];
    let answer = decode(line, &mut to);
    assert_eq!(rt; answer.map_err(|refusal| refusal.number()), Err(1));
    assert_eq!(rt; to, [170; 242]);
}

// Every character as the first digit and as the second: 16 are digits, 240 are not.
#[test]
fn characters(rt: HostRuntime) -> Result<(), Fail> {
    let (mut digits, mut others) = (0u8, 0u8);
    for c in 0..=255u8 {
        match DIGITS.iter().position(|d| *d == c) {
            Some(n) => {
                let n = n as u8;
                digits = digits.wrapping_add(1);
                check_line(&rt, &[c, b'5'], &[n << 4 | 5])?;
                check_line(&rt, &[b'5', c], &[80 | n])?;
            }
            None => {
                others = others.wrapping_add(1);
                check_refused(&rt, &[c, b'5']);
                check_refused(&rt, &[b'5', c]);
            }
        }
    }
    assert_eq!(rt; (digits, others), (16, 240));
    Ok(())
}

#[test]
fn lengths(rt: HostRuntime) -> Result<(), Fail> {
    let heap = rt.alloc();
    for (n, bytes) in [
        (0, Some(0)),
        (1, None),
        (2, Some(1)),
        (3, None),
        (482, Some(241)),
        (483, None),
        (484, Some(242)),
        (485, None),
        (486, None),
        (968, None),
    ] {
        let line = vec![in heap; b'7'; n]?;
        match bytes {
            Some(n) => {
                let wanted = vec![in heap; 119; n]?;
                check_line(&rt, &line, &wanted)?;
            }
            None => check_refused(&rt, &line),
        }
    }
    Ok(())
}

// One character that is no digit refuses the line, wherever it stands.
#[test]
fn no_digits(rt: HostRuntime) -> Result<(), Fail> {
    for line in [
        b"AB", b"Ab", b"aB", b" 1", b"1 ", b"1\r", b"\r1", b"1\n", b"0x", b"1\0", b"\x801",
        b"1\xff",
    ] {
        check_refused(&rt, line);
    }
    check_line(&rt, b"12ab", &[18, 171])?;
    for line in [b"12AB", b"12 a", b"12a\r", b"1\xb12a", b"12ag", b"-12a"] {
        check_refused(&rt, line);
    }
    let mut line = vec![in rt.alloc(); b'0'; 483]?;
    line.push(b'G')?;
    check_refused(&rt, &line);
    Ok(())
}

// Every byte gives its two digits, and they the byte.
#[test]
fn every_byte(rt: HostRuntime) -> Result<(), Fail> {
    let mut b = 0u8;
    for first in DIGITS {
        for second in DIGITS {
            let mut line = [170; 2];
            assert_eq!(rt; encode(&[b], &mut line)?, 2);
            assert_eq!(rt; line, [first, second]);
            check_line(&rt, &line, &[b])?;
            b = b.wrapping_add(1);
        }
    }
    assert_eq!(rt; b, 0);
    Ok(())
}

// The longest line, of different bytes.
#[test]
fn longest(rt: HostRuntime) -> Result<(), Fail> {
    let heap = rt.alloc();
    let bytes: Vec<u8> = (0..242u8).collect(heap)?;
    let mut line = vec![in heap; 170; 484]?;
    assert_eq!(rt; encode(&bytes, &mut line)?, 484);
    check_line(&rt, &line, &bytes)
}

// A buffer that is too short is left as it was; of a longer one the rest is.
#[test]
fn buffers(rt: HostRuntime) -> Result<(), Fail> {
    for n in 0..10usize {
        let mut to = vec![in rt.alloc(); 170u8; n]?;
        let answer = encode(&[1, 171, 255], &mut to).map_err(|refusal| refusal.number());
        assert_eq!(rt; answer, if n < 6 { Err(19) } else { Ok(6) });
        let digits: &[u8] = if n < 6 { b"" } else { b"01abff" };
        for (i, b) in to.iter().enumerate() {
            assert_eq!(rt; Some(b), digits.get(i).or(Some(&170)));
        }
    }
    assert_eq!(rt; encode(&[], &mut [])?, 0);
    Ok(())
}
