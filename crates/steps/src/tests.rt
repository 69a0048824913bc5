//! What is written when reading or writing fails.
use crate::run;
use std::io;
use std::io::{Read, Write};
use std::test::Fail;

/// Gives its bytes, and then fails where it should end.
#[derive(Drop)]
struct BreaksOff {
    bytes: &'static [u8],
}

impl Read for BreaksOff {
    fn read(&mut self, buf: &mut [u8]) -> io::Result<usize> {
        if self.bytes.is_empty() {
            return Err(io::ErrorKind::ConnectionReset.into());
        }
        self.bytes.read(buf)
    }
}

/// Takes a few bytes, and then fails.
#[derive(Drop)]
struct FillsUp {
    room: usize,
}

impl Write for FillsUp {
    fn write(&mut self, buf: &[u8]) -> io::Result<usize> {
        if self.room == 0 {
            return Err(io::ErrorKind::StorageFull.into());
        }
        let len = self.room.min(buf.len());
        self.room -= len;
        Ok(len)
    }

    fn flush(&mut self) -> io::Result<()> {
        Ok(())
    }
}

// A whole line could be listed of what was read, and none is written.
#[test]
fn a_reader_that_breaks_off_writes_nothing(rt: HostRuntime) -> Result<(), Fail> {
    let mut reader = BreaksOff {
        bytes: b"L\x02\x01HEQ\0\0",
    };
    let mut written = Vec::new(rt.alloc());
    let why = run(rt.alloc(), &mut reader, &mut written)
        .err()
        .ok_or("it is done")?;
    assert_eq!(rt;
        format!(in rt.alloc(); "{why}")?.as_str(),
        "connection reset"
    );
    assert_eq!(rt; written.len(), 0);
    Ok(())
}

#[test]
fn a_writer_that_fills_up_is_an_error(rt: HostRuntime) -> Result<(), Fail> {
    let mut reader: &[u8] = b"L\x02\x01HEQ\0\0";
    let why = run(rt.alloc(), &mut reader, &mut FillsUp { room: 8 })
        .err()
        .ok_or("it is done")?;
    assert_eq!(rt;
        format!(in rt.alloc(); "{why}")?.as_str(),
        "no storage space"
    );
    Ok(())
}

#[test]
fn the_listing_is_written(rt: HostRuntime) -> Result<(), Fail> {
    let mut reader: &[u8] = b"L\x02\x01HEQ\0\0";
    let mut written = Vec::new(rt.alloc());
    run(rt.alloc(), &mut reader, &mut written)?;
    assert_eq!(rt; written.as_slice(), b"1 L ok\n2 Q 0\n".as_slice());
    Ok(())
}
