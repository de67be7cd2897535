// The head and the rows of the file of stored answers. Assumes nothing.
ghost use Rattle.std.specs.Prelude.{◌≡◌, ◌↔◌, ◌+◌, ◌*◌, ◌%◌, ◌≤◌, length, ◌<◌, get_or, IfSome, IfNone, IsTrue};
ghost use Rattle.std.specs.Int.{w64, from_le_bytes};
ghost use Rattle.base.specs.Bytes.{part, u32_at};
ghost use Rattle.stored_cases.specs.Ops.{Decodes};
ghost use Rattle.stored_cases.specs.Rows.{place_in};

use crate::op::{Op, UnknownOp};
use sheet::reader::u32_at;

pub const HEAD_BYTES: usize = 16;

pub const ROW_BYTES: usize = 40;

// Where a packed string stands in the file.
#[derive(Clone, Copy)]
pub struct Place {
    pub from: usize,
    pub long: usize,
}

impl Place {
    // Its bytes, where the file has them.
    pub fn part(self, file: &[u8]) -> Option<&[u8]>
        ensures part { IfSome result (λ p. p.now ≡ part file.now self.from self.long) }
        ensures outside { IfNone result (length file.now < self.from + self.long) }
    {
        file.get(self.from..)?.get(..self.long)
    }
}

// A case: its op, or a number that is none's, whether its answer was made wrong, how much is lent, the stored result, and where the three packed strings stand.
#[derive(Clone, Copy)]
pub struct Row {
    pub op: Result<Op, UnknownOp>,
    pub wrong: bool,
    pub lent: usize,
    pub result: u64,
    pub input: Place,
    pub second: Place,
    pub written: Place,
}

// The number of cases; none where the file has no case, or is cut off or damaged.
pub fn cases_in(file: &[u8]) -> Option<usize>
    ensures { IfSome result (λ n. 16 + 40 * n ≤ length file.now) }
{
    if file.len() < HEAD_BYTES || !file.starts_with(b"replay 1") {
        return None;
    }
    let n = u32_at(file, 8) as usize;
    let long = u32_at(file, 12) as usize;
    if n == 0 || long != file.len() || long - HEAD_BYTES < ROW_BYTES * n {
        return None;
    }
    Some(n)
}

// The place in the eight bytes from `at` on.
fn place_at(p: &[u8], at: usize) -> Place
    requires { at + 8 ≤ length p.now }
    ensures { result ≡ place_in p.now at }
{
    Place {
        from: u32_at(p, at) as usize,
        long: u32_at(p, at + 4) as usize,
    }
}

// The case that a row's bytes are.
pub fn row_of(p: &[u8]) -> Row
    requires { length p.now ≡ 40 }
    ensures op { Decodes (get_or p.now 0 0 % 128) result.op }
    ensures wrong { IsTrue result.wrong ↔ (128 ≤ get_or p.now 0 0) }
    ensures lent { result.lent ≡ u32_at p.now 4 }
    ensures result { result.result ≡ from_le_bytes w64 (part p.now 8 8) }
    ensures input { result.input ≡ place_in p.now 16 }
    ensures second { result.second ≡ place_in p.now 24 }
    ensures written { result.written ≡ place_in p.now 32 }
{
    Row {
        op: Op::try_from(p[0] % 128),
        wrong: p[0] >= 128,
        lent: u32_at(p, 4) as usize,
        result: u64::from_le_bytes(*p[8..].first_chunk().unwrap()),
        input: place_at(p, 16),
        second: place_at(p, 24),
        written: place_at(p, 32),
    }
}
