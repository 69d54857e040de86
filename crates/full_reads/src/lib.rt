// Reading until a buffer is full or the input ends, for the programs.
#![tactic(auto)]

ghost use Rattle.full_reads.specs.FullRead.{ReadsFull};
ghost use Rattle.std.specs.Io.{ReadsAtMost};

use std::io;
use std::io::Read;

// Reads until buf is full or the input ends: how many bytes stand at its start. A read that fails ends it; the bytes read before
// then stand at buf's start.
pub fn read_full<R: Read>(reader: &mut R, buf: &mut [u8]) -> io::Result<usize>
    ensures bound { ReadsAtMost result buf.new }
    ensures bytes { ReadsFull (R.remaining reader.old) (R.remaining reader.new) result buf.new }
{
    let mut done = 0;
    // each read says how far the next one begins
    while done < buf.len() {
        let n = reader.read(&mut buf[done..])?;
        if n == 0 {
            return Ok(done);
        }
        done += n;
    }
    Ok(done)
}

#[cfg(test)]
mod tests {
    use super::*;
    use std::io::ErrorKind;

    // Gives one byte at a time, and then fails.
    #[derive(Drop)]
    struct Fails {
        left: u8,
    }

    impl Read for Fails {
        fn read(&mut self, buf: &mut [u8]) -> io::Result<usize> {
            if self.left == 0 {
                return Err(ErrorKind::TimedOut.into());
            }
            if buf.is_empty() {
                return Ok(0);
            }
            buf[0] = self.left;
            self.left -= 1;
            Ok(1)
        }
    }

    // A failed read is told, and what was read before stands at the start.
    #[test]
    fn tells_a_failed_read(rt: HostRuntime) {
        let mut buf = [0u8; 3];
        let mut reader = Fails { left: 2 };
        assert!(rt; read_full(&mut reader, &mut buf).is_err());
        assert!(rt; &buf == &[2, 1, 0]);
        let mut enough = Fails { left: 3 };
        assert!(rt; matches!(read_full(&mut enough, &mut buf), Ok(3)));
        assert!(rt; &buf == &[3, 2, 1]);
    }

    // Into room for three bytes: more, just as many, fewer, none.
    #[test]
    fn reads_what_fits(rt: HostRuntime) -> io::Result<()> {
        let mut buf = [0u8; 3];
        let mut reader: &[u8] = b"abcde";
        assert_eq!(rt; read_full(&mut reader, &mut buf)?, 3);
        assert!(rt; &buf == b"abc");
        assert_eq!(rt; read_full(&mut reader, &mut buf)?, 2);
        assert!(rt; &buf[0..2] == b"de".as_slice());
        assert_eq!(rt; read_full(&mut reader, &mut buf)?, 0);
        let mut exact: &[u8] = b"fgh";
        assert_eq!(rt; read_full(&mut exact, &mut buf)?, 3);
        assert!(rt; &buf == b"fgh");
        assert_eq!(rt; read_full(&mut exact, &mut buf)?, 0);
        Ok(())
    }
}
