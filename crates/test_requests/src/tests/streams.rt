//! Streams that fail, and the words of a program.

use std::alloc::{AllocError, Global};
use std::io::{self, ErrorKind, Read, Write};

/// How far a reader was read.
#[derive(Clone, Copy, PartialEq, Eq, Debug)]
pub enum Progress {
    Unasked,
    Begun,
    Ended,
}

/// Gives a text in pieces, and then ends or fails. It notes how far it was read.
#[derive(Drop)]
pub struct Pieces<'a> {
    pub text: &'a [u8],
    pub piece: usize,
    pub failure: Option<ErrorKind>,
    pub progress: &'a mut Progress,
}

impl<'a> Read for Pieces<'a> {
    fn read(&mut self, buf: &mut [u8]) -> io::Result<usize> {
        *self.progress = Progress::Begun;
        if self.text.is_empty() {
            if let Some(kind) = self.failure {
                return Err(io::Error::from(kind));
            }
            *self.progress = Progress::Ended;
        }
        let n = self.text.len().min(buf.len()).min(self.piece);
        buf[..n].copy_from_slice(&self.text[..n]);
        self.text = &self.text[n..];
        Ok(n)
    }
}

/// Takes as many bytes as it has room for, and then fails. It fails to flush where it is told to.
#[derive(Drop)]
pub struct Takes<'a> {
    pub taken: &'a mut Vec<u8>,
    pub room: usize,
    pub fails_to_flush: bool,
}

impl<'a> Write for Takes<'a> {
    fn write(&mut self, buf: &[u8]) -> io::Result<usize> {
        if self.room == 0 {
            return Err(io::Error::from(ErrorKind::Other));
        }
        let n = buf.len().min(self.room);
        self.taken.extend_from_slice(&buf[..n])?;
        self.room -= n;
        Ok(n)
    }

    fn flush(&mut self) -> io::Result<()> {
        if self.fails_to_flush {
            return Err(io::Error::from(ErrorKind::Other));
        }
        Ok(())
    }
}

/// The words of a program.
pub(super) fn list_of(alloc: Global, words: &[&str]) -> Result<Vec<String>, AllocError> {
    let mut list = Vec::new(alloc);
    for word in words {
        list.push(String::from_str(alloc, word)?)?;
    }
    Ok(list)
}
