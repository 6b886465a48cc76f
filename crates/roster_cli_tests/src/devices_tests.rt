//! Several readers as one.

use roster_cli::Joined;
use roster_devices::CallCounter;
use std::io::Read;
use std::test::Fail;

/// Whether the reader gives these bytes, one for each read, and then its end.
fn gives_by_one_byte(input: &mut impl Read, bytes: &[u8]) -> bool {
    let mut byte = [0];
    for given in bytes {
        if !matches!(input.read(&mut byte), Ok(1)) || byte[0] != *given {
            return false;
        }
    }
    matches!(input.read(&mut byte), Ok(0))
}

#[test]
fn joined_readers_by_one_byte(rt: HostRuntime) -> Result<(), Fail> {
    let mut readers = Vec::new(rt.alloc());
    readers.push(b"a".as_slice())?;
    assert!(rt; gives_by_one_byte(&mut Joined::new(readers), b"a\n"));
    Ok(())
}

#[test]
fn a_fault_of_a_joined_reader_is_passed_on(rt: HostRuntime) -> Result<(), Fail> {
    let mut readers = Vec::new(rt.alloc());
    readers.push(CallCounter::new(b"a".as_slice(), 0))?;
    readers.push(CallCounter::new(b"b".as_slice(), 1))?;
    let mut joined = Joined::new(readers);
    let mut bytes = [0; 4];
    assert!(rt; matches!(joined.read(&mut bytes), Ok(1)));
    assert!(rt; matches!(joined.read(&mut bytes), Ok(1)));
    assert!(rt; joined.read(&mut bytes).is_err());
    assert!(rt; gives_by_one_byte(&mut joined, b"b\n"));
    Ok(())
}
