// Reading a whole input into a buffer of fixed size.
#![tactic(auto)]

ghost use Rattle.std.specs.Prelude.{◌<◌, IfOk, length, take};
ghost use Rattle.std.specs.Io.{ReadsAtMost};
ghost use Rattle.std.specs.Io.KnownBytes.{Consumes, IsAtEnd};

use std::io;
use std::io::Read;

// Reads until the buffer is full or the input ends, and answers how many bytes stand at the front of the buffer.
pub fn read_full<R: Read>(reader: &mut R, buffer: &mut [u8]) -> io::Result<usize>
    ensures count { ReadsAtMost result buffer.new }
    ensures bytes { IfOk result (λ n. Consumes (R.remaining reader.old) (R.remaining reader.new) (take n buffer.new)) }
    ensures end { IfOk result (λ n. n < length buffer.new → IsAtEnd (R.remaining reader.new)) }
{
    let mut done = 0;
    // What a read gives is not known before it. The library's `read_exact` fails where the input is shorter, and `read_to_end` needs a heap.
    while done < buffer.len() {
        let n = reader.read(&mut buffer[done..])?;
        if n == 0 {
            return Ok(done);
        }
        done += n;
    }
    Ok(done)
}

#[cfg(test)]
mod tests {
    use super::*;
    use std::test::Fail;

    // Gives a byte at each read, and fails in place of a byte 255.
    #[derive(Drop)]
    struct Slow<'a> {
        rest: &'a [u8],
    }

    impl Read for Slow<'_> {
        fn read(&mut self, buf: &mut [u8]) -> io::Result<usize> {
            if buf.is_empty() {
                return Ok(0);
            }
            let Some((first, rest)) = self.rest.split_first() else {
                return Ok(0);
            };
            if *first == 255 {
                return Err(io::Error::from(io::ErrorKind::Other));
            }
            buf[0] = *first;
            self.rest = rest;
            Ok(1)
        }
    }

    #[test]
    fn a_short_input_is_read_to_its_end(rt: HostRuntime) -> Result<(), Fail> {
        let mut input = Slow { rest: b"abc" };
        let mut buffer = [7u8; 5];
        let n = read_full(&mut input, &mut buffer)?;
        assert_eq!(rt; n, 3);
        assert_eq!(rt; buffer, [97, 98, 99, 7, 7]);
        Ok(())
    }

    #[test]
    fn a_long_input_fills_the_buffer(rt: HostRuntime) -> Result<(), Fail> {
        let mut input: &[u8] = b"abcdef";
        let mut buffer = [0u8; 5];
        let n = read_full(&mut input, &mut buffer)?;
        assert_eq!(rt; n, 5);
        assert_eq!(rt; buffer, *b"abcde");
        assert_eq!(rt; input.len(), 1);
        Ok(())
    }

    #[test]
    fn a_read_that_fails_is_told(rt: HostRuntime) {
        let mut input = Slow { rest: b"ab\xFFc" };
        let mut buffer = [0u8; 5];
        assert!(rt; read_full(&mut input, &mut buffer).is_err());
    }
}
