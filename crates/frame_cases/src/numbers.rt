//! Every refusal and its number.
use refusals::Refusal;

#[test]
fn numbers(rt: HostRuntime) {
    assert_eq!(rt;
        [
            Refusal::Digits,
            Refusal::NoByte,
            Refusal::Kind,
            Refusal::Length,
            Refusal::Count,
            Refusal::MapBit,
            Refusal::Scale,
            Refusal::Share,
            Refusal::Absent,
            Refusal::Depth,
            Refusal::Width,
            Refusal::ShareRange,
            Refusal::Base,
            Refusal::Short,
            Refusal::Value,
            Refusal::Position,
            Refusal::Threshold,
            Refusal::Buffer,
            Refusal::Row,
            Refusal::Node,
            Refusal::Full,
        ]
        .map(|refusal| refusal.number()),
        [
            1, 2, 3, 4, 5, 6, 7, 8, 9, 10, 11, 12, 13, 14, 15, 16, 18, 19, 20, 21, 22,
        ]
    );
}
