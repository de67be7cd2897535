// Check 4: each record against the table of kinds. A block is handed on as the part of the sheet that it is, a record as the part of its block. Assumes nothing.
ghost use Rattle.std.specs.Prelude.{◌≡◌, cond, ◌+◌, ◌*◌, ◌<◌, ◌≤◌, get_or, length, drop, IfSome};
ghost use Rattle.base.specs.Sizes.{block_bytes, record_bytes, block_records, max_instructions};
ghost use Rattle.base.specs.Lists.{zeros, first_bad};
ghost use Rattle.base.specs.Bytes.{number};
ghost use Rattle.sheet.specs.Layout.{count_of, record_blocks, decode};
ghost use Rattle.sheet.specs.Checks.{shape, shapes, shape_of, fits, record_ok, place_ok};
ghost use Rattle.sheet.specs.ByBlocks.{Finds};
ghost use Rattle.sheet_form.specs.BlockSearch.{in_block};

use crate::blocks::record_blocks;
use base::{BLOCK_BYTES, BLOCK_RECORDS, LIST_PLACES, RECORD_BYTES, RECORDS_FROM};
use sheet::Shape;
use sheet::reader::{all_zero, decode};
use stackless_bytecode::Bytecode;

// How many kinds there are.
const KINDS: usize = 12;

// The most places of a list.
const MOST: u8 = LIST_PLACES as u8;

// A row of the table: subs, destinations from and to, sources from and to, label one, label two, flag, payload. Nine parameters, so that the rows below read as the paper's table.
fn row(
    subs: u8,
    dlow: u8,
    dhigh: u8,
    slow: u8,
    shigh: u8,
    one: bool,
    two: bool,
    flag: bool,
    payload: bool,
) -> Shape
    ensures { result ≡ shape subs dlow dhigh slow shigh one two flag payload }
{
    Shape {
        subs,
        dlow,
        dhigh,
        slow,
        shigh,
        one,
        two,
        flag,
        payload,
    }
}

// The table of kinds, by the kind's number: the paper asks for this form by place.
pub fn shape_of(kind: u8) -> Shape
    ensures { result ≡ shape_of kind }
{
    match kind {
        // Assign
        0 => row(3, 1, 1, 1, 1, false, false, false, false),
        // Call: the operations 0 to 54
        1 => row(55, 0, MOST, 0, MOST, false, false, true, true),
        // Ret
        2 => row(1, 0, 0, 0, MOST, false, false, false, false),
        // Load
        3 => row(7, 1, 1, 0, 0, false, false, false, true),
        // Branch
        4 => row(1, 0, 0, 1, 1, true, true, false, false),
        // Jump
        5 => row(1, 0, 0, 0, 0, true, false, false, false),
        // Label
        6 => row(1, 0, 0, 0, 0, true, false, false, false),
        // Abort
        7 => row(1, 0, 0, 1, 1, false, false, false, false),
        // Nop
        8 => row(1, 0, 0, 0, 0, false, false, false, false),
        // SaveMem
        9 => row(1, 0, 0, 0, 0, false, false, false, true),
        // SaveSpecVar
        10 => row(1, 0, 0, 0, 0, false, false, false, true),
        // Prop
        11 => row(3, 0, 0, 0, MOST, false, false, false, true),
        // No kind: no sub is below 0.
        _ => row(0, 0, 0, 0, 0, false, false, false, false),
    }
}

// The rows of all kinds, in memory: one is found there with no jump by the kind.
fn rows() -> [Shape; KINDS]
    ensures { result ≡ shapes }
{
    [
        shape_of(0),
        shape_of(1),
        shape_of(2),
        shape_of(3),
        shape_of(4),
        shape_of(5),
        shape_of(6),
        shape_of(7),
        shape_of(8),
        shape_of(9),
        shape_of(10),
        shape_of(11),
    ]
}

// Whether each place from n on is 0: the n places before it are shifted out.
fn zero_from(list: &[u8; LIST_PLACES], n: u8) -> bool
    ensures { result ≡ zeros (drop n list.now) }
{
    if n >= MOST {
        return true;
    }
    u64::from_le_bytes(*list) >> (8 * n) == 0
}

// Whether a record keeps to a row: what it does not use is 0, and so is each list place past its count.
// A jump that is never taken costs less than a bool that is kept, so the ranges come first, and the lists last.
#[tactic(auto, using(crate::specs::RowLaws::no_ranges, crate::specs::RowLaws::no_unused, crate::specs::RowLaws::lists_left))]
pub fn fits(f: Shape, r: Bytecode) -> bool
    ensures { result ≡ fits f r }
{
    let ranges = (r.sub < f.subs)
        & (f.dlow <= r.ndst)
        & (r.ndst <= f.dhigh)
        & (f.slow <= r.nsrc)
        & (r.nsrc <= f.shigh);
    if !ranges {
        return false;
    }
    let unused = (f.one | (r.flag == 1) | (r.one == 0))
        & (f.two | (r.two == 0))
        & ((r.flag == 0) | (f.flag & (r.flag == 1)))
        & ((r.flag == 1) | (r.abort == 0))
        & (f.payload | (r.payload == 0));
    if !unused {
        return false;
    }
    zero_from(&r.dsts, r.ndst) & zero_from(&r.srcs, r.nsrc)
}

// A record's part, with the row of its kind: an instruction where it is used, else zeros.
#[tactic(auto, unfolding(sheet::specs::Checks::record_ok, sheet::specs::Layout::decode))]
fn place_ok(f: Shape, p: &[u8], used: bool) -> bool
    requires size { length p.now ≡ record_bytes }
    requires row { f ≡ shape_of (get_or p.now 0 0) }
    ensures { result ≡ cond used (record_ok (decode p.now)) (zeros p.now) }
{
    if used {
        return fits(f, decode(p));
    }
    all_zero(p)
}

// The first wrong record of one block, whose first has place `from`. What starts with no kind is neither an instruction nor zeros.
fn first_bad_in(p: &[u8], from: usize, n: usize) -> Option<usize>
    requires block { length p.now ≡ block_bytes }
    requires from { from ≤ 2 * max_instructions }
    ensures { Finds from (from + block_records) (in_block p.now from n) result }
{
    let table = rows();
    for k in from..from + BLOCK_RECORDS {
        let at = RECORDS_FROM + RECORD_BYTES * (k - from);
        let kind = usize::from(p[at]);
        if kind >= KINDS {
            return Some(k);
        }
        if !place_ok(table[kind], &p[at..at + RECORD_BYTES], k < n) {
            return Some(k);
        }
    }
    None
}

// Check 4: the first record that breaks the table, or past n is not zero. It goes block by block, so that no place is divided by 15.
#[tactic(auto, unfolding(sheet::specs::Layout::record_blocks))]
pub fn first_bad_record(s: &[u8], n: usize) -> Option<usize>
    requires count { n ≡ count_of s.now }
    requires few { n ≤ max_instructions }
    requires size { length s.now ≡ block_bytes * (1 + record_blocks n) }
    ensures first { result ≡ first_bad (block_records * record_blocks n) 0 (place_ok s.now) }
    ensures within { IfSome result (λ k. k < block_records * record_blocks n) }
{
    for b in 0..record_blocks(n) {
        let at = BLOCK_BYTES * (1 + b);
        if let Some(k) = first_bad_in(&s[at..at + BLOCK_BYTES], BLOCK_RECORDS * b, n) {
            return Some(k);
        }
    }
    None
}
