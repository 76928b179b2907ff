use crate::PamtWord;
use td_words::PageKind;

#[test]
fn words_are_those_of_the_table(rt: HostRuntime) {
    let vcpu = PamtWord {
        kind: PageKind::Tdvpr,
        owner: 1023,
        epoch: 3,
    };
    assert_eq!(rt; vcpu.pack(), 0x3_0000_3ff4);
    assert_eq!(rt; PamtWord::unpack(0x3_0000_3ff4), Some(vcpu));
    // an owner on a host page, an owner that no machine has, a spare bit, and no kind
    for word in [0x10, 0x4002, 0x10_0002, 0x7] {
        assert_eq!(rt; PamtWord::unpack(word), None);
    }
}
