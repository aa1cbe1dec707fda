// The calls on plain words, on the first visit of a small plan: a request that waits, and the visit that runs it. What is expected is
// worked out by hand.
use crate::{Desk, Forwarded, RequestAnswer, request_on_words, visit_on_words};

const PLAN: [u32; 11] = [
    0x1204_000B,
    0x2220_0000,
    0x5200_0000,
    0x4000_0000,
    0x2220_0000,
    0x5200_0000,
    0x4270_0000,
    0x2110_0000,
    0x3270_0000,
    0x201F_0000,
    0x3470_0000,
];

const FRAME: [u32; 4] = [0x9000_0004, 0, 0x9000_0004, 0x2000_0008];

// The frame that the visit sends, and a word behind it.
const SENT: [u32; 8] = [
    0x9100_0007,
    1,
    0xA010_0000,
    0xB000_0080,
    3,
    0xE110_008B,
    0x1530_012A,
    0,
];

#[test]
fn words_hold_what_waits(rt: HostRuntime) {
    let mut cells = [0; 1024];
    let mut row = [0; 192];
    let state = Desk {
        desk: 0,
        waiting: 0,
        awaited: 0,
    };
    let asked = request_on_words(&PLAN, state, &mut cells, &mut row, 7, 1, [0, 3, 0, 0]);
    assert!(rt; asked.answer == Ok(RequestAnswer::Waits));
    assert!(rt; asked.state.waiting == 1);
    assert!(rt; row[..7] == [7, 1, 0, 3, 0, 0, 0]);
    assert!(rt; cells == [0; 1024]);
}

#[test]
fn words_are_run_by_the_visit(rt: HostRuntime) {
    let mut cells = [0; 1024];
    let mut snapshot = [0; 1024];
    let mut row = [0; 192];
    let mut out = [0; 6404];
    let mut replies = [0; 224];
    let state = Desk {
        desk: 0,
        waiting: 1,
        awaited: 0,
    };
    row[..4].copy_from_slice(&[7, 1, 0, 3]);
    let visited = visit_on_words(
        &PLAN,
        state,
        &mut cells,
        &mut snapshot,
        &row,
        &FRAME,
        &mut out,
        &mut replies,
    );
    let forwarded = Forwarded {
        words: 7,
        replies: 1,
    };
    assert!(rt; visited.answer == Ok(forwarded));
    assert!(rt; visited.state.awaited == 2);
    assert!(rt; out[..8] == SENT[..]);
    assert!(rt; replies[..8] == [0xC000_0001, 7, 3, 0, 0, 0, 0, 0]);
    assert!(rt; cells[128] == 3);
    assert!(rt; snapshot == [0; 1024]);
}
