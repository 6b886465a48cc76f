//! What no clause states: that calls succeed, and which text they print, over readers and writers that take
//! or give little.

use roster_devices::{AtEnd, EndlessReader, FailingReader, OneByteReader, ShortWriter};
use roster_text::{
    Piece, TextFault, Watch, What, WriteFault, read_all, send_pieces, write_bytes, write_number,
    write_pieces,
};
use std::alloc::Global;
use std::io::{ErrorKind, Read};
use std::test::Fail;

/// Whether a reader of this number of blanks is refused as too long, without a failed read.
fn is_too_long(alloc: Global, blanks: u64) -> bool {
    let mut input = Watch::new(EndlessReader { byte: b' ' }.take(blanks));
    let answer = read_all(alloc, &mut input);
    matches!(answer, Err(TextFault::TooLong)) && !input.failed()
}

#[test]
fn reads_up_to_the_limit(rt: HostRuntime) {
    let mut most = Watch::new(EndlessReader { byte: b' ' }.take(16_777_216));
    let answer = read_all(rt.alloc(), &mut most);
    assert!(rt; matches!(&answer, Ok(bytes) if bytes.len() == 16_777_216));
    assert!(rt; is_too_long(rt.alloc(), 16_777_217));
    assert!(rt; is_too_long(rt.alloc(), u64::MAX));
}

#[test]
fn reads_one_byte_at_a_time(rt: HostRuntime) {
    let mut input = Watch::new(OneByteReader { rest: b"one\ntwo" });
    let answer = read_all(rt.alloc(), &mut input);
    assert!(rt; matches!(&answer, Ok(bytes) if bytes.as_slice() == b"one\ntwo".as_slice()));
}

#[test]
fn reads_no_further_than_a_failure(rt: HostRuntime) -> Result<(), Fail> {
    let text = vec![in rt.alloc(); b'a'; 200_000]?;
    // Four reads give at most 65,536 bytes, and one finds the end.
    for fails_in in 1..7 {
        let mut input = Watch::new(FailingReader {
            rest: text.as_slice(),
            fails_in,
            kind: ErrorKind::Interrupted,
        });
        let answer = read_all(rt.alloc(), &mut input);
        let is_right = if fails_in < 6 {
            matches!(answer, Err(TextFault::ReadFailed)) && input.failed()
        } else {
            matches!(&answer, Ok(bytes) if bytes.as_slice() == text.as_slice()) && !input.failed()
        };
        assert!(rt; is_right, "{fails_in}");
    }
    Ok(())
}

#[test]
fn writes_bytes_and_numbers(rt: HostRuntime) {
    let mut out = Watch::new(Vec::new(rt.alloc()));
    assert!(rt; write_bytes(&mut out, b"0 to ").is_ok());
    assert!(rt; write_number(&mut out, u64::MAX).is_ok());
    let text = out.into_inner();
    assert_eq!(rt; text.as_slice(), b"0 to 18446744073709551615".as_slice());
}

#[test]
fn writes_pieces_as_far_as_they_are_taken(rt: HostRuntime) {
    let pieces = [Piece::Bytes(b"Ann "), Piece::Number(40)];
    let mut buffer = [0; 9];
    let mut out = Watch::new(ShortWriter::new(&mut buffer, AtEnd::Fail));
    assert!(rt; write_pieces(&mut out, &pieces).is_ok());
    let answer = send_pieces(&mut out, 7, &pieces);
    assert_eq!(rt; answer, Err(WriteFault::WriteFailed { sent: 10 }));
    assert!(rt; out.failed());
    assert_eq!(rt; out.into_inner().written(), b"Ann 40Ann".as_slice());
}

#[test]
fn shows_faults(rt: HostRuntime) -> Result<(), Fail> {
    let (line, what, sent) = (37, What::Number, 7);
    let text = TextFault::Expected { line, what }.to_string(rt.alloc())?;
    assert_eq!(rt; text.as_str(), "line 37: expected number");
    let text = WriteFault::WriteFailed { sent }.to_string(rt.alloc())?;
    assert_eq!(rt; text.as_str(), "write failed after 7 bytes");
    Ok(())
}
