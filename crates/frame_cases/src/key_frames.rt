//! Frames of keys: nodes, what is allowed, and the end. Tags at every edge are the lines of frame_lines.
use frames::head::{Allowed, Change};
use frames::key_frames::Keys;
use keys::node::Node;
use std::test::Fail;

// The number of the refusal, 0 if the frame is accepted.
fn answer(frame: &[u8], added: bool, retracted: bool) -> u8 {
    Keys::<Node>::check(frame, Allowed { added, retracted }).map_or_else(
        |refusal| refusal.number(),
        |_| 0,
    )
}

#[test]
fn nodes(rt: HostRuntime) -> Result<(), Fail> {
    let frame = [4u8, 2, 0, 0, 1, 0, 255, 255, 255, 255];
    let allowed = Allowed {
        added: false,
        retracted: true,
    };
    let mut nodes = Keys::<Node>::check(&frame, allowed)?;
    assert!(rt; nodes.change() == Change::Retracted);
    assert!(rt; nodes.next() == Some(Node { number: 256 }));
    assert!(rt;
        nodes.next()
            == Some(Node {
                number: 4_294_967_295,
            })
    );
    assert!(rt; nodes.next().is_none());
    assert!(rt; nodes.next().is_none());
    Ok(())
}

#[test]
fn allowed_kinds(rt: HostRuntime) {
    let added = [3u8, 1, 0, 0, 0, 9];
    let retracted = [4u8, 1, 0, 0, 0, 9];
    assert_eq!(rt; answer(&added, true, false), 0);
    assert_eq!(rt; answer(&added, false, true), 3);
    assert_eq!(rt; answer(&retracted, true, false), 3);
    assert_eq!(rt; answer(&retracted, false, true), 0);
    assert_eq!(rt; answer(&[1, 1, 0], true, true), 3);
    assert_eq!(rt; answer(&[3, 1, 0, 0, 0], true, true), 4);
    assert_eq!(rt; answer(&[3, 1, 0, 0, 0, 9, 0], true, true), 4);
}
