//! Reports as JSON, read back by `serde_json`: each line has the fields that COMMANDS.md lists, and the names
//! are those that were given.

use roster_cli::{Command, Request, run};
use roster_devices::{AtEnd, ShortWriter};
use roster_tests::texts::changed;
use roster_text::Watch;
use serde_json::Value;
use std::alloc::{AllocError, Global};
use std::test::Fail;

/// What a field holds.
#[derive(Clone, Copy)]
enum Type {
    Number,
    Name,
    Truth,
}

/// A kind of object, with its fields after `kind`.
type Object = (&'static str, &'static [(&'static str, Type)]);

const SLOT: Object = (
    "breach",
    &[
        ("rule", Type::Name),
        ("day", Type::Number),
        ("week", Type::Number),
        ("weekday", Type::Name),
        ("shift", Type::Number),
        ("shift_name", Type::Name),
        ("skill", Type::Number),
        ("skill_name", Type::Name),
        ("have", Type::Number),
        ("need", Type::Number),
    ],
);

const NURSE: Object = (
    "breach",
    &[
        ("rule", Type::Name),
        ("day", Type::Number),
        ("week", Type::Number),
        ("weekday", Type::Name),
        ("nurse", Type::Number),
        ("nurse_name", Type::Name),
    ],
);

const COSTS: Object = (
    "costs",
    &[
        ("allowed", Type::Truth),
        ("S1", Type::Number),
        ("S2", Type::Number),
        ("S3", Type::Number),
        ("S4", Type::Number),
        ("S5", Type::Number),
        ("S6", Type::Number),
        ("S7", Type::Number),
        ("S8", Type::Number),
        ("total", Type::Number),
    ],
);

const SIZES: Object = (
    "sizes",
    &[
        ("nurse", Type::Number),
        ("nurse_name", Type::Name),
        ("states", Type::Number),
        ("labels", Type::Number),
        ("pointers", Type::Number),
        ("extensions", Type::Number),
    ],
);

const TAKER: Object = (
    "taker",
    &[
        ("nurse", Type::Number),
        ("nurse_name", Type::Name),
        ("penalty", Type::Number),
        ("changed", Type::Number),
        ("missed", Type::Number),
    ],
);

/// Names that need escapes, the last with a byte in the place of `~` that is no UTF-8, and what is read back.
const NAMES: [(&str, &str); 2] = [
    ("A\"n\\n\u{1}", "A\"n\\n\u{1}"),
    ("B\u{fc}~", "B\u{fc}\u{fffd}"),
];

/// What a command writes over a roster in which Ann works on a Monday of absence, in a shift that needs two.
fn lines_of(alloc: Global, command: Command) -> Result<Vec<u8>, AllocError> {
    let request = Request {
        command,
        files: Vec::new(alloc),
        out: None,
    };
    let text = changed(
        alloc,
        &[
            ("Nurse (0,1)", "Nurse (2,2)"),
            ("REQUESTS = 0\n", "REQUESTS = 0\nABSENCES = 1\nAnn Mon\n"),
            (
                "ASSIGNMENTS = 0\n",
                "ASSIGNMENTS = 1\nAnn Mon Early Nurse\n",
            ),
            ("Ann", NAMES[0].0),
            ("Bob", NAMES[1].0),
        ],
    )?;
    let mut bytes = Vec::from_slice(alloc, text.as_bytes())?;
    for byte in bytes.iter_mut() {
        if *byte == b'~' {
            *byte = 0xFF;
        }
    }
    let (mut output_buffer, mut log_buffer) = ([0; 1000], [0; 200]);
    let mut input = Watch::new(bytes.as_slice());
    let mut output = Watch::new(ShortWriter::new(&mut output_buffer, AtEnd::Fail));
    let mut log = Watch::new(ShortWriter::new(&mut log_buffer, AtEnd::Fail));
    if run(alloc, &request, &mut input, &mut output, &mut log) != 0 {
        return Ok(Vec::new(alloc));
    }
    Vec::from_slice(alloc, output.into_inner().written())
}

/// Whether an object is of a kind, and has its fields and no others.
fn is_of(value: &Value, (kind, fields): Object) -> bool {
    let mut all = text_of(value, "kind") == Some(kind);
    for (name, of) in fields {
        all &= match of {
            Type::Number => value.get(*name).is_some_and(Value::is_u64),
            Type::Name => value.get(*name).is_some_and(Value::is_string),
            Type::Truth => value.get(*name).is_some_and(Value::is_boolean),
        };
    }
    all && value
        .as_object()
        .is_some_and(|members| members.len() == fields.len() + 1)
}

/// The text of a field.
fn text_of<'a>(value: &'a Value, name: &str) -> Option<&'a str> {
    value.get(name).and_then(Value::as_str)
}

/// Whether an object has the number of a nurse and what her name is read as.
fn names_nurse(value: &Value, nurse: usize) -> bool {
    value.get("nurse").and_then(Value::as_u64) == Some(nurse as u64)
        && text_of(value, "nurse_name") == Some(NAMES[nurse.min(1)].1)
}

/// The objects of a report.
fn objects_of(alloc: Global, report: &[u8]) -> Result<Vec<Value>, Fail> {
    let mut objects = Vec::new(alloc);
    for line in std::str::from_utf8(report)?.lines() {
        objects.push(Value::from_str(alloc, line)?)?;
    }
    Ok(objects)
}

#[test]
fn costs_are_read_back(rt: HostRuntime) -> Result<(), Fail> {
    let alloc = rt.alloc();
    let report = lines_of(alloc, Command::Cost { json: true })?;
    let objects = objects_of(alloc, report.as_slice())?;
    assert_eq!(rt; objects.len(), 3);
    assert!(rt; is_of(&objects[0], SLOT));
    assert!(rt; is_of(&objects[1], NURSE) && names_nurse(&objects[1], 0));
    assert!(rt; is_of(&objects[2], COSTS));
    assert!(rt; objects[2].get("allowed").and_then(Value::as_bool) == Some(false));
    Ok(())
}

#[test]
fn sizes_are_read_back(rt: HostRuntime) -> Result<(), Fail> {
    let alloc = rt.alloc();
    let report = lines_of(alloc, Command::Sizes { json: true })?;
    let objects = objects_of(alloc, report.as_slice())?;
    assert_eq!(rt; objects.len(), 2);
    for nurse in 0..2 {
        assert!(rt; is_of(&objects[nurse], SIZES) && names_nurse(&objects[nurse], nurse));
    }
    Ok(())
}

#[test]
fn takers_are_read_back(rt: HostRuntime) -> Result<(), Fail> {
    let alloc = rt.alloc();
    let asked = Command::Who {
        day: String::from_str(alloc, "0:Wed")?,
        shift: String::from_str(alloc, "Early")?,
        skill: None,
        from: 0,
        json: true,
    };
    let report = lines_of(alloc, asked)?;
    let objects = objects_of(alloc, report.as_slice())?;
    assert_eq!(rt; objects.len(), 2);
    for object in objects.as_slice() {
        assert!(rt; is_of(object, TAKER));
    }
    // Whoever takes the shift, both are named.
    assert!(rt; names_nurse(&objects[0], 0) != names_nurse(&objects[1], 0));
    assert!(rt; names_nurse(&objects[0], 1) != names_nurse(&objects[1], 1));
    Ok(())
}
