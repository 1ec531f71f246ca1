//! A writer of one's own below a `Stream`.
use conversation::Stream;
use std::io;
use std::io::{ErrorKind, Write};

/// A writer that takes so many bytes, and then fails.
#[derive(Drop)]
struct Narrow {
    room: usize,
}

impl Write for Narrow {
    fn write(&mut self, text: &[u8]) -> io::Result<usize> {
        let taken = self.room.min(text.len());
        if taken == 0 {
            return Err(io::Error::from(ErrorKind::Other));
        }
        self.room -= taken;
        Ok(taken)
    }

    fn flush(&mut self) -> io::Result<()> {
        Ok(())
    }
}

#[test]
fn a_write_that_fails_is_kept(rt: HostRuntime) {
    let mut stream = Stream::new(Narrow { room: 4 });
    assert!(rt; stream.write(b"yes\n").is_ok() && !stream.has_failed());
    assert!(rt; stream.write(b"no\n").is_err() && stream.has_failed());
    assert_eq!(rt; stream.into_writer().room, 0);
}
