//! A text that grows.

use itoa::Buffer;
use std::alloc::{AllocError, Global};

/// The bytes of a text so far.
#[derive(Drop)]
pub struct Text {
    bytes: Vec<u8>,
}

impl Text {
    pub fn new(alloc: Global) -> Text {
        Text {
            bytes: Vec::new(alloc),
        }
    }

    pub fn into_bytes(self) -> Vec<u8> {
        self.bytes
    }

    pub fn put_bytes(&mut self, bytes: &[u8]) -> Result<(), AllocError> {
        self.bytes.extend_from_slice(bytes)
    }

    pub fn put(&mut self, word: &str) -> Result<(), AllocError> {
        self.bytes.extend_from_slice(word.as_bytes())
    }

    pub fn put_number(&mut self, number: usize) -> Result<(), AllocError> {
        let mut digits = Buffer::new();
        self.put(digits.format(number))
    }

    /// Puts a pair as `(1,2)`, with a blank in front.
    pub fn put_pair(&mut self, first: usize, second: usize) -> Result<(), AllocError> {
        self.put(" (")?;
        self.put_number(first)?;
        self.put(",")?;
        self.put_number(second)?;
        self.put(")")
    }

    /// Puts the name of a nurse, as `Nurse017`.
    pub fn put_nurse(&mut self, nurse: usize) -> Result<(), AllocError> {
        let name = [
            b'N',
            b'u',
            b'r',
            b's',
            b'e',
            digit(nurse / 100),
            digit(nurse / 10),
            digit(nurse),
        ];
        self.bytes.extend_from_slice(&name)
    }
}

/// The last digit of a number.
fn digit(number: usize) -> u8 {
    b'0' + (number % 10) as u8
}
