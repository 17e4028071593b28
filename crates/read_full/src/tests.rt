// Readers whose bytes come one by one, and one that fails in mid-stream.
use crate::read_full;
use std::io::{self, ErrorKind, Read};
use std::test::*;

// Gives its text a byte at a time, and fails once where it is cut.
#[derive(Drop)]
struct Dripping<'a> {
    text: &'a [u8],
    at: usize,
    cut: Option<usize>,
}

impl Read for Dripping<'_> {
    fn read(&mut self, buf: &mut [u8]) -> io::Result<usize> {
        if self.cut == Some(self.at) {
            self.cut = None;
            return Err(io::Error::from(ErrorKind::BrokenPipe));
        }
        match (self.text.get(self.at), buf.first_mut()) {
            (Some(byte), Some(place)) => {
                *place = *byte;
                self.at = self.at.saturating_add(1);
                Ok(1)
            }
            _ => Ok(0),
        }
    }
}

fn whole(text: &[u8]) -> Dripping<'_> {
    Dripping {
        text,
        at: 0,
        cut: None,
    }
}

#[test]
fn a_byte_a_turn_fills_the_buffer(rt: HostRuntime) -> Result<(), Fail> {
    let mut input = whole(b"evening");
    let mut buffer = [0u8; 4];
    assert_eq!(rt; read_full(&mut input, &mut buffer)?, 4);
    assert_eq!(rt; &buffer[..], b"even".as_slice());
    assert_eq!(rt; read_full(&mut input, &mut buffer)?, 3);
    assert_eq!(rt; &buffer[..3], b"ing".as_slice());
    assert_eq!(rt; read_full(&mut input, &mut buffer)?, 0);
    Ok(())
}

#[test]
fn a_reader_over_memory(rt: HostRuntime) -> Result<(), Fail> {
    let mut input: &[u8] = b"board";
    let mut buffer = [0u8; 8];
    assert_eq!(rt; read_full(&mut input, &mut buffer)?, 5);
    assert_eq!(rt; &buffer[..5], b"board".as_slice());
    Ok(())
}

#[test]
fn a_failure_is_told_and_the_rest_follows(rt: HostRuntime) -> Result<(), Fail> {
    let mut input = Dripping {
        text: b"evening",
        at: 0,
        cut: Some(2),
    };
    let mut buffer = [0u8; 8];
    let failed = read_full(&mut input, &mut buffer);
    assert!(rt; failed.is_err_and(|e| e.kind() == ErrorKind::BrokenPipe));
    assert_eq!(rt; &buffer[..2], b"ev".as_slice());
    assert_eq!(rt; read_full(&mut input, &mut buffer)?, 5);
    assert_eq!(rt; &buffer[..5], b"ening".as_slice());
    Ok(())
}
