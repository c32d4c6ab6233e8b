// The files of a case, which a program's argument names: the argument with an ending of four bytes; and how the cases end, as it is shown.
#![tactic(auto)]

ghost use Rattle.io.specs.Counts.{IsPrefixLen};

use files::Input;
use std::env::{Env, FillError};
use std::io::{Error, ErrorKind, Result};
use std::rt::Files;
use std::{fs, str};

#[cfg(test)]
mod tests;

// How many arguments the program was started with, its own name among them.
pub fn arg_count(rt: &impl Env) -> usize {
    let mut argument = [0u8; 4096];
    for count in 0..usize::MAX {
        if let Err(FillError::NotPresent) = rt.arg(count, &mut argument) {
            return count;
        }
    }
    usize::MAX
}

// A case: what the program runs on, and the place of the argument that names the case.
#[derive(Clone, Copy)]
pub struct Case<'a, R> {
    pub rt: &'a R,
    pub argument: usize,
}

impl<R: Env + Files> Case<'_, R> {
    // Opens the file whose name is the case's argument and an ending. A path has at most 4,096 bytes, and is text.
    pub fn open(&self, ending: &[u8; 4]) -> Result<R::File> {
        let no_path = Error::from(ErrorKind::InvalidFilename);
        let mut path = [0u8; 4096];
        let length = match self.rt.arg(self.argument, &mut path) {
            Ok(length) => length,
            Err(FillError::NotPresent) => return Err(Error::from(ErrorKind::NotFound)),
            Err(FillError::TooLong) => return Err(no_path),
        };
        let end = length + ending.len();
        if path.len() < end {
            return Err(no_path);
        }
        path[length..end].copy_from_slice(ending);
        let Ok(text) = str::from_utf8(&path[..end]) else {
            return Err(no_path);
        };
        fs::open(self.rt, text)
    }

    // Reads the file whose name is the case's argument and an ending.
    pub fn read(&self, ending: &[u8; 4], buffer: &mut [u8]) -> Input
        ensures { IsPrefixLen result.length buffer.new }
    {
        match self.open(ending) {
            Ok(mut file) => files::read_all(&mut file, buffer),
            Err(error) => Input {
                length: 0,
                failed: Some(error),
            },
        }
    }
}

impl<R: Env + Print> Case<'_, R> {
    // Writes the case's name: its argument, or nothing where that has no room.
    pub fn write_name(&self) -> Result<()> {
        let mut name = [0u8; 4096];
        let length = self.rt.arg(self.argument, &mut name).unwrap_or(0);
        self.rt.write_all(&name[..length])
    }

    // Writes how the case ended.
    pub fn show(&self, agrees: bool) -> Result<()> {
        let result = if agrees { "agrees" } else { "differs" };
        self.write_name()?;
        println!(self.rt; " {result}")
    }
}

// Writes how many cases agree, and of how many.
pub fn show_total(rt: &impl Print, agreed: usize, tried: usize) -> Result<()> {
    println!(rt; "{agreed} of {tried} agree")
}
