// Checks 1 to 3: the length, the blocks and the heading. A block is handed on as the part of the sheet that it is. Assumes nothing.
ghost use Rattle.std.specs.Prelude.{◌≡◌, ◌*◌, ◌/◌, ◌%◌, ◌^◌, ◌<◌, ◌≤◌, ltb, length, IfSome};
ghost use Rattle.base.specs.Sizes.{block_bytes, max_number};
ghost use Rattle.base.specs.Lists.{sum, first_bad};
ghost use Rattle.base.specs.Bytes.{number};
ghost use Rattle.sheet.specs.Layout.{block_at, record_blocks};
ghost use Rattle.sheet.specs.Checks.{length_ok, block_ok, heading_ok};

use base::{
    BLOCK_BYTES, BLOCK_RECORDS, MAX_BYTES, MAX_INSTRUCTIONS, MAX_LOCALS, RECORDS_FROM, REFS_AT,
    REFS_END,
};
use sheet::reader::{all_zero, count_of, locals_of, parameters_of, u16_at, user_locals_of};

// Check 1: whole blocks, at least two, and no more than the longest sheet has.
#[tactic(auto, unfolding(sheet::specs::Checks::length_ok))]
pub fn length_ok(n: usize) -> bool
    ensures { result ≡ length_ok n }
{
    (n % BLOCK_BYTES == 0) & (2 * BLOCK_BYTES <= n) & (n <= MAX_BYTES)
}

// The sum of the bytes. A `for`: its invariant says that the sum fits, which of a chain has to be said beside it.
pub fn total(s: &[u8]) -> usize
    requires { length s.now ≤ 65536 }
    ensures { (result ≡ sum s.now) × (result ≤ 255 * length s.now) }
{
    let mut total = 0;
    for &x in s {
        total += usize::from(x);
    }
    total
}

// Check 2 of one block: its number, its check, and zeros before the records of a later one.
#[tactic(auto, unfolding(sheet::specs::Checks::block_ok), using(sheet::specs::BlockLaws::check_is))]
pub fn block_ok(p: &[u8], b: usize) -> bool
    requires { length p.now ≡ block_bytes }
    ensures { result ≡ block_ok p.now b }
{
    let number = usize::from(u16_at(p, 0));
    let check = usize::from(u16_at(p, 2));
    let t = total(&p[0..2]) + total(&p[4..BLOCK_BYTES]);
    let clear = all_zero(&p[4..RECORDS_FROM]);
    // The check is the sum's lower two bytes.
    (number == b) & (check == t % 65536) & ((b == 0) | clear)
}

// Check 2: the first block that is wrong.
#[tactic(auto, using(base::specs::SearchLaws::all_none))]
pub fn first_bad_block(s: &[u8]) -> Option<usize>
    requires { length s.now % block_bytes ≡ 0 }
    ensures first { result ≡ first_bad (length s.now / block_bytes) 0 (λ b. block_ok (block_at s.now b) b) }
    ensures within { IfSome result (λ b. b < length s.now / block_bytes) }
{
    // A range: over chunks_exact the proof speaks of the list of all that was handed out, and is no plainer.
    for b in 0..s.len() / BLOCK_BYTES {
        let at = BLOCK_BYTES * b;
        if !block_ok(&s[at..at + BLOCK_BYTES], b) {
            return Some(b);
        }
    }
    None
}

// Whether a byte has no bit at or above l.
#[tactic(auto, using(base::specs::ByteLaws::byte_all, base::specs::ByteLaws::shift_none))]
fn byte_below(x: u8, l: usize) -> bool
    ensures { result ≡ ltb x (2 ^ l) }
{
    if l >= 8 {
        return true;
    }
    x >> l == 0
}

// Whether the number in the bytes has no bit at or above l.
fn mask_below(p: &[u8], l: usize) -> bool
    ensures { result ≡ ltb (number p.now) (2 ^ l) }
{
    let mut rest = l;
    for &x in p {
        if !byte_below(x, rest) {
            return false;
        }
        rest = rest.saturating_sub(8);
    }
    true
}

// How many blocks hold n records.
#[tactic(auto, unfolding(sheet::specs::Layout::record_blocks))]
pub fn record_blocks(n: usize) -> usize
    requires { n ≤ max_number }
    ensures { (result ≡ record_blocks n) × (result ≤ n) }
{
    n.div_ceil(BLOCK_RECORDS)
}

// Check 3: the heading, and as many blocks as its instructions need.
#[tactic(auto, unfolding(sheet::specs::Checks::heading_ok, sheet::specs::Layout::refs_of))]
pub fn heading_ok(s: &[u8]) -> bool
    requires { 2 * block_bytes ≤ length s.now }
    ensures { result ≡ heading_ok s.now }
{
    let n = usize::from(count_of(s));
    let locals = usize::from(locals_of(s));
    let users = usize::from(user_locals_of(s));
    let parameters = usize::from(parameters_of(s));
    let clear = all_zero(&s[12..REFS_AT]);
    let refs = mask_below(&s[REFS_AT..REFS_END], locals);
    let rest = all_zero(&s[REFS_END..BLOCK_BYTES]);
    let blocks = 1 + record_blocks(n);
    (1 <= n)
        & (n <= MAX_INSTRUCTIONS)
        & (locals <= MAX_LOCALS)
        & (users <= locals)
        & (parameters <= users)
        & clear
        & refs
        & rest
        & (s.len() == BLOCK_BYTES * blocks)
}
