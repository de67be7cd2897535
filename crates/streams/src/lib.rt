// A reader, such as standard input, read to its end. Assumes nothing.
#![tactic(auto)]

ghost use Rattle.std.specs.Prelude.{◌≤◌, length, IfOk};

use std::io;
use std::io::Read;

// Reads until `buf` is full or the input ends: how many bytes now stand at the front of `buf`. A read that fails is not taken for the end.
pub fn read_input<R: Read>(from: &mut R, buf: &mut [u8]) -> io::Result<usize>
    ensures { IfOk result (λ n. n ≤ length buf.old) }
{
    let mut done = 0;
    // No range: a read may give less than there is room for.
    while done < buf.len() {
        let Ok(more) = from.read(&mut buf[done..]) else {
            return Err(io::Error::other("standard input cannot be read"));
        };
        if more == 0 {
            break;
        }
        done += more;
    }
    Ok(done)
}

#[cfg(test)]
mod tests {
    use super::*;

    // Gives one byte at a time, and then fails.
    #[derive(Drop)]
    struct Failing {
        left: u8,
    }

    impl Read for Failing {
        fn read(&mut self, buf: &mut [u8]) -> io::Result<usize> {
            if self.left == 0 {
                return Err(io::Error::other("no more"));
            }
            if buf.is_empty() {
                return Ok(0);
            }
            self.left -= 1;
            buf[0] = self.left;
            Ok(1)
        }
    }

    #[test]
    fn reads_to_the_end(rt: HostRuntime) {
        let mut room = [0u8; 4];
        let bytes = [7u8, 8, 9];
        let mut from = bytes.as_slice();
        assert!(rt; matches!(read_input(&mut from, &mut room), Ok(3)));
        assert_eq!(rt; room, [7, 8, 9, 0]);
    }

    #[test]
    fn a_failing_read_is_not_the_end(rt: HostRuntime) {
        let mut room = [0u8; 4];
        let mut from = Failing { left: 3 };
        assert!(rt; read_input(&mut from, &mut room).is_err());
        assert!(rt; read_input(&mut from, &mut room).is_err());
    }

    #[test]
    fn a_full_buffer_asks_no_more(rt: HostRuntime) {
        let mut room = [0u8; 4];
        let mut from = Failing { left: 4 };
        assert!(rt; matches!(read_input(&mut from, &mut room), Ok(4)));
        assert_eq!(rt; room, [3, 2, 1, 0]);
    }
}
