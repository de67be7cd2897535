// Packed strings, and what lent output holds before a call. Assumes nothing.
ghost use Rattle.std.specs.Prelude.{◌≤◌, length, IfSome};

// The longest string of bytes, and the bytes of a lent output with those behind it: 72 blocks of a sheet.
pub const ROOM: usize = 36864;

// What lent output holds before a call.
pub const FILL: u8 = 165;

// A byte that is not 0 is itself, and 0 with a byte c behind it is c zeros. `out` is all zeros, so they are passed over.
// The number of bytes; none where there are too many for `out`, or a 0 is the last byte.
pub fn unpack(p: &[u8], out: &mut [u8]) -> Option<usize>
    ensures { IfSome result (λ n. n ≤ length out.old) }
{
    let mut at = 0;
    let mut bytes = p.iter();
    while let Some(byte) = bytes.next() {
        if *byte == 0 {
            at += usize::from(*bytes.next()?);
            if out.len() < at {
                return None;
            }
        } else {
            *out.get_mut(at)? = *byte;
            at += 1;
        }
    }
    Some(at)
}
