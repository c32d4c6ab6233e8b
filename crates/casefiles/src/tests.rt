// What a case's name is written as: by a made-up runtime, which has two arguments and looks at each byte that is written.
use crate::Case;
use std::cell::Cell;
use std::env::{Env, FillError};
use std::fmt::Display;
use std::io;
use std::io::{Error, ErrorKind};

// The byte at a place of every argument.
fn byte_at(place: usize) -> u8 {
    (place % 251) as u8
}

// How many bytes are written, and whether each is that of its place.
#[derive(Drop)]
struct MadeUp {
    length: Cell<usize>,
    right: Cell<bool>,
}

impl MadeUp {
    fn new() -> MadeUp {
        MadeUp {
            length: Cell::new(0),
            right: Cell::new(true),
        }
    }
}

// Argument 1 has three bytes, argument 2 as many as there is room for, argument 3 more.
impl Env for MadeUp {
    fn arg(&self, i: usize, buf: &mut [u8]) -> Result<usize, FillError> {
        let length = match i {
            1 => 3,
            2 => buf.len(),
            3 => return Err(FillError::TooLong),
            _ => return Err(FillError::NotPresent),
        };
        let Some(start) = buf.get_mut(..length) else {
            return Err(FillError::TooLong);
        };
        for (place, byte) in start.iter_mut().enumerate() {
            *byte = byte_at(place);
        }
        Ok(length)
    }

    fn var(&self, _name: &str, _buf: &mut [u8]) -> Result<usize, FillError> {
        Err(FillError::NotPresent)
    }

    fn var_at(&self, _i: usize, _buf: &mut [u8]) -> Result<usize, FillError> {
        Err(FillError::NotPresent)
    }
}

// Bytes alone are looked at; what is formatted is refused, since a name is written as it stands.
impl Print for MadeUp {
    fn print<D: Display + Drop>(&self, _value: D) -> io::Result<()> {
        Err(Error::from(ErrorKind::Unsupported))
    }

    fn println<D: Display + Drop>(&self, _value: D) -> io::Result<()> {
        Err(Error::from(ErrorKind::Unsupported))
    }

    fn write_all(&self, bytes: &[u8]) -> io::Result<()> {
        let before = self.length.get();
        for (place, &byte) in bytes.iter().enumerate() {
            if byte != byte_at(before.saturating_add(place)) {
                self.right.set(false);
            }
        }
        self.length.set(before.saturating_add(bytes.len()));
        Ok(())
    }
}

#[test]
fn the_name_is_the_argument(rt: HostRuntime) {
    for (argument, length) in [(1, 3), (2, 4096), (3, 0), (4, 0)] {
        let made_up = MadeUp::new();
        let case = Case {
            rt: &made_up,
            argument,
        };
        assert!(rt; case.write_name().is_ok(), "argument {argument}");
        assert_eq!(rt; made_up.length.get(), length, "argument {argument}");
        assert!(rt; made_up.right.get(), "argument {argument}");
    }
}
