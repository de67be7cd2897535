// The cut of a class set into sheets: one starts at each block numbered 0. Assumes nothing.
ghost use Rattle.std.specs.Prelude.{◌≡◌, ◌-◌, ◌<◌, ◌≤◌, get_or, IfSome};
ghost use Rattle.std.specs.List.{find, range_with_len};
ghost use Rattle.base.specs.Lists.{keep};
ghost use Rattle.class_set.specs.ClassSet.{blocks_in, starts_at, sheets_in};

use base::BLOCK_BYTES;
use sheet::reader::u16_at;

// Whether block b is numbered 0.
#[tactic(auto, unfolding(crate::specs::ClassSet::starts_at))]
pub(crate) fn starts_at(s: &[u8], b: usize) -> bool
    requires { b < blocks_in s.now }
    ensures { result ≡ starts_at s.now b }
{
    u16_at(s, BLOCK_BYTES * b) == 0
}

// How many sheets there are.
#[tactic(auto, unfolding(crate::specs::ClassSet::starts_of))]
pub fn count_sheets(s: &[u8]) -> usize
    ensures { result ≡ sheets_in s.now }
{
    (0..s.len() / BLOCK_BYTES)
        .filter(|&b| starts_at(s, b))
        .count()
}

// The first block from `from` on at which a sheet starts.
fn start_from(s: &[u8], from: usize) -> Option<usize>
    requires { from ≤ blocks_in s.now }
    ensures first { result ≡ find (starts_at s.now) (range_with_len from (blocks_in s.now - from)) }
    ensures within { IfSome result (λ b. (from ≤ b) × (b < blocks_in s.now)) }
{
    (from..s.len() / BLOCK_BYTES).find(|&b| starts_at(s, b))
}

// That block, or the end.
#[tactic(auto, using(crate::specs::CutLaws::found))]
pub fn next_start(s: &[u8], from: usize) -> usize
    requires { from ≤ blocks_in s.now }
    ensures first { result ≡ get_or (keep (blocks_in s.now - from) from (starts_at s.now)) 0 (blocks_in s.now) }
    ensures within { (from ≤ result) × (result ≤ blocks_in s.now) }
{
    start_from(s, from).unwrap_or(s.len() / BLOCK_BYTES)
}
