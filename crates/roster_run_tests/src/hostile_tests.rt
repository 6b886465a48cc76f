//! Runs over texts that are cut off or changed at each byte.

use roster_cli::{Command, Request, run};
use roster_tests::texts::{MINI, SHOWN};
use roster_text::Watch;
use std::alloc::Global;
use std::test::Fail;

/// The status, the output and the log of a run of `show` over a text.
fn show(alloc: Global, text: &[u8]) -> (u8, Vec<u8>, Vec<u8>) {
    let request = Request {
        command: Command::Show,
        files: Vec::new(alloc),
        out: None,
    };
    let mut input = Watch::new(text);
    let mut output = Watch::new(Vec::new(alloc));
    let mut log = Watch::new(Vec::new(alloc));
    let status = run(alloc, &request, &mut input, &mut output, &mut log);
    (status, output.into_inner(), log.into_inner())
}

#[test]
fn texts_cut_off_after_each_byte(rt: HostRuntime) -> Result<(), Fail> {
    let whole = MINI.as_bytes();
    let mut line: u32 = 1;
    for (end, byte) in whole.iter().enumerate() {
        let (status, output, log) = show(rt.alloc(), &whole[..end]);
        let logged = format!(in rt.alloc(); "line {line}: expected ")?;
        // The last token is one byte, with an LF after it.
        let is_right = if end + 1 < whole.len() {
            status == 1 && output.is_empty() && log.starts_with(logged.as_bytes())
        } else {
            status == 0 && output.as_slice() == SHOWN.as_bytes() && log.is_empty()
        };
        assert!(rt; is_right, "{end}");
        if *byte == b'\n' {
            line = line.saturating_add(1);
        }
    }
    Ok(())
}

#[test]
fn texts_with_another_byte_at_each_index(rt: HostRuntime) -> Result<(), Fail> {
    for at in 0..MINI.len() {
        for byte in *b"(),= 0x" {
            let mut text = MINI.as_bytes().to_vec(rt.alloc())?;
            if let Some(target) = text.get_mut(at) {
                *target = byte;
            }
            let (status, output, log) = show(rt.alloc(), text.as_slice());
            let is_answered = status == 0 && !output.is_empty() && log.is_empty();
            let is_refused = status == 1 && output.is_empty() && !log.is_empty();
            assert!(rt; is_answered || is_refused, "{at} {byte}");
        }
    }
    Ok(())
}
