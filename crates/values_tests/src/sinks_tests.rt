//! Texts written in pieces, and sinks that answer from a list, that keep, and that write.
use sinks::written::{
    Bracketed, Itself, Joined, Listed, Number, Pair, Text, Written, write_framed,
};
use sinks::{Answer, Kept, Refused, Script, Sink, Tap, WriteFault, put};
use std::io::Cursor;
use std::test::Fail;

const NUMBERS: &[Number] = &[Number(1), Number(-20), Number(i64::MIN)];

const GIVEN: &[Number] = &[Number(3), Number(0)];

/// Numbers that are joined, nothing, a sign, a pair, and what an iterator gives, framed and as a list.
fn write_pieces(kept: &mut Kept) -> Result<(), WriteFault> {
    Bracketed(Joined(NUMBERS)).write(kept)?;
    Option::<Number>::None.write(kept)?;
    Some(Text(b";")).write(kept)?;
    Pair(-3, 4).write(kept)?;
    write_framed(kept, b"<", &Itself, &mut GIVEN.iter(), b">")?;
    Listed(GIVEN, &Itself).write(kept)
}

#[test]
fn joins_pieces(rt: HostRuntime) {
    let mut kept = Kept::new(rt.alloc());
    assert!(rt; write_pieces(&mut kept).is_ok());
    let expected = b"[1,-20,-9223372036854775808];[-3,4]<3,0>[3,0]";
    assert!(rt; kept.into_bytes().as_slice() == expected.as_slice());
}

#[test]
fn stops_at_a_failure(rt: HostRuntime) -> Result<(), Fail> {
    let answers = Vec::from_array(rt.alloc(), [Answer::Take(2), Answer::FailAfter(1)])?;
    let mut script = Script::new(rt.alloc(), answers);
    let fault = Joined(&[Number(123), Number(4)]).write(&mut script).err();
    assert!(rt; fault == Some(WriteFault::Write));
    assert!(rt; script.taken() == b"123".as_slice() && script.failures() == 1);
    Ok(())
}

const ANSWERS: [Answer; 4] = [
    Answer::Take(1),
    Answer::Fail,
    Answer::FailAfter(2),
    Answer::Take(0),
];

/// What is offered, and what the sink of `ANSWERS` answers, one after another.
const OFFERED: &[(&str, Result<usize, Refused>)] = &[
    ("ab", Ok(1)),
    ("cd", Err(Refused)),
    ("efg", Err(Refused)),
    ("hi", Ok(0)),
    ("jkl", Ok(3)),
];

#[test]
fn answers_from_its_list(rt: HostRuntime) -> Result<(), Fail> {
    let mut script = Script::new(rt.alloc(), Vec::from_array(rt.alloc(), ANSWERS)?);
    for (offered, answer) in OFFERED {
        assert!(rt; script.offer(offered.as_bytes()) == *answer, "{offered}");
    }
    assert!(rt; script.flush().is_ok());
    assert!(rt; script.taken() == b"aefjkl".as_slice() && script.failures() == 3);
    Ok(())
}

#[test]
fn keeps(rt: HostRuntime) {
    let mut kept = Kept::new(rt.alloc());
    assert!(rt; kept.offer(b"mn") == Ok(2) && kept.flush().is_ok());
}

#[test]
fn writes_to_a_writer(rt: HostRuntime) {
    let mut bytes = Vec::new(rt.alloc());
    let mut tap = Tap::new(&mut bytes);
    assert!(rt; put(&mut tap, b"abc").is_ok() && tap.flush().is_ok());
    assert!(rt; bytes.as_slice() == b"abc".as_slice());
}

#[test]
fn a_writer_that_is_full(rt: HostRuntime) {
    let mut full = Tap::new(Cursor::new([0_u8; 2]));
    assert!(rt; put(&mut full, b"abc") == Err(WriteFault::Write));
}
