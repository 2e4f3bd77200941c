use crate::settling::{settle, told};
use std::alloc::AllocError;
use std::io;
use std::io::{ErrorKind, Read};
use std::test::*;

// Gives its text a byte at a time, and then an error.
#[derive(Drop)]
struct Torn<'a>(&'a [u8]);

impl<'a> Read for Torn<'a> {
    fn read(&mut self, buf: &mut [u8]) -> io::Result<usize> {
        match (self.0.split_first(), buf.first_mut()) {
            (Some((byte, rest)), Some(place)) => {
                *place = *byte;
                self.0 = rest;
                Ok(1)
            }
            _ => Err(io::Error::from(ErrorKind::ConnectionReset)),
        }
    }
}

#[test]
fn answers_each_line_and_the_last_without_its_end(rt: HostRuntime) -> Result<(), Fail> {
    let mut input = b"01000001000000000000000A\n0A000001\nxyz\n0A000000".as_slice();
    let mut output = Vec::new(rt.alloc());
    settle(rt.alloc(), &mut input, &mut output)?;
    let answers = b"00\n00000000000000000A\nFF50\n000000000000000000\n".as_slice();
    assert_eq!(rt; output.as_slice(), answers);
    Ok(())
}

#[test]
fn answers_the_whole_lines_before_an_error(rt: HostRuntime) -> Result<(), Fail> {
    let mut input = Torn(b"01000001000000000000000A\n0A0000");
    let mut output = Vec::new(rt.alloc());
    let result = settle(rt.alloc(), &mut input, &mut output);
    assert!(rt; result.is_err_and(|e| e.kind() == ErrorKind::ConnectionReset));
    assert_eq!(rt; output.as_slice(), b"00\n".as_slice());
    Ok(())
}

#[test]
fn tells_want_of_memory_in_the_words_of_the_allocator(rt: HostRuntime) -> Result<(), Fail> {
    let want = told(io::Error::from(AllocError));
    assert_eq!(rt;
        format!(in rt.alloc(); "{want}")?.as_str(),
        "memory allocation failed"
    );
    let system = told(io::Error::from_raw_os_error(12));
    assert_eq!(rt;
        format!(in rt.alloc(); "{system}")?.as_str(),
        "Cannot allocate memory (os error 12)"
    );
    let full = told(io::Error::from_raw_os_error(28));
    assert_eq!(rt;
        format!(in rt.alloc(); "{full}")?.as_str(),
        "No space left on device (os error 28)"
    );
    Ok(())
}
