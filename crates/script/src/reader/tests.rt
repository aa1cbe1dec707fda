// A short script from memory. What is expected was written by tools/script.py.
use super::run;
use std::test::Fail;

const SCRIPT: &[u8] = b"\
plan 1204000B 22200000 52000000 40000000 \\\n\
22200000 52000000 42700000 \\\n\
21100000 32700000 \\\n\
201F0000 34700000\n\
desk 0\n\
desk 1\n\
start\n\
request 1 client 9 T0 5 9\n\
request 0 client 7 T1 0 3\n\
pass 1\n\
visit 1 word 2 5\n\
cell 1 1040 7\n\
show frame 1";

const ANSWERS: &[u8] = b"\
plan: accepted, 2 desks, 4 transactions, 11 words\n\
desk 0: 0 waiting, awaits visit 0\n\
desk 1: 0 waiting, awaits visit 1\n\
start: sends frame 0 of 4 words: 90000004 00000000 90000004 20000008\n\
desk 1: T0(5, 9) of client 9: done, 9; cell 20 is now 9\n\
desk 0: T1(0, 3) of client 7: waits; record 0 is now client 7 T1(0, 3, 0, 0); 1 waiting, awaits visit 0\n\
desk 0: visit 0 by frame 0: 1 reply, client 7 done, 3; sends frame 1 of 7 words: 91000007 00000001 A0100000 B0000080\
\x2000000003 E110008B 1530012A; cell 128 is now 3; 0 waiting, awaits visit 2\n\
desk 1: visit by frame 1, changed: refused 11: a sum is wrong\n\
line 12, word 3: a number from 0 to 1039 is expected\n\
frame 1: 7 words, visit 1 to desk 1\n\
\x20\x20update of desk 0: cell 128 is 3\n\
lines 13, bad 1\n\
calls 8, refused 1, changed by a refusal 0\n\
refused 11: 1\n\
requests 2: done 1, declined 0, waiting 1, elsewhere 0\n\
visits 1: replies 1, several replies 0, changed frames 0, longest frame taken 4, longest frame sent 7\n\
";

#[test]
fn answers_as_the_model_does(rt: HostRuntime) -> Result<(), Fail> {
    let mut said: Vec<u8> = Vec::new(rt.alloc());
    run(rt.alloc(), SCRIPT, &mut said)?;
    assert!(rt; said.as_slice() == ANSWERS);
    Ok(())
}

#[test]
fn ends_where_a_write_fails(rt: HostRuntime) {
    let mut room = [0; 10];
    assert!(rt; run(rt.alloc(), SCRIPT, room.as_mut_slice()).is_err());
    assert!(rt; room == *b"plan: acce");
}
