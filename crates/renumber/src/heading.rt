// The heading of a renumbered sheet: the number of locals that stay, and their references. Assumes nothing.
ghost use Rattle.std.specs.Prelude.{◌≡◌, ℕ, ◌<◌, ◌≤◌, get_or, length};
ghost use Rattle.base.specs.Sizes.{max_locals, block_bytes};
ghost use Rattle.dataflow_domains.specs.Sets.{mask};
ghost use Rattle.sheet.specs.Layout.{heading_rest};
ghost use Rattle.eliminate_unused_vars.specs.Remap.{remap_set};
ghost use Rattle.eliminate_unused_vars.specs.Renumber.{rest_with};

use base::{BLOCK_BYTES, REFS_AT, REFS_END};
use dataflow_domains::LiveVarState;
use sheet_writer::writer::put_u16;

// A set under the new numbers, where these locals stay.
#[tactic(auto, using(eliminate_unused_vars::specs::RenumberWorkLaws::set_none, eliminate_unused_vars::specs::RenumberWorkLaws::set_put, eliminate_unused_vars::specs::RenumberWorkLaws::set_kept, eliminate_unused_vars::specs::RenumberWorkLaws::set_all))]
pub fn remap_set(set: LiveVarState, order: &[u16]) -> LiveVarState
    requires few { length order.now ≤ max_locals }
    requires below { (i : ℕ) → i < length order.now → get_or order.now i 0 < max_locals }
    ensures { mask result ≡ remap_set order.now (mask set) }
{
    let mut new = LiveVarState::empty();
    for (i, &local) in order.iter().enumerate() {
        if set.has(local as u8) {
            new = new.insert(i as u8);
        }
    }
    new
}

// The heading of a sheet with another number of locals and other references; its own number, count and check are left to who writes the sheet.
pub fn put_heading(sheet: &[u8], locals: usize, refs: LiveVarState, head: &mut [u8])
    requires block { block_bytes ≤ length sheet.now }
    requires few { locals ≤ max_locals }
    requires head { length head.old ≡ block_bytes }
    ensures { heading_rest head.new ≡ rest_with sheet.now locals (mask refs) }
{
    head.copy_from_slice(&sheet[0..BLOCK_BYTES]);
    put_u16(&mut head[6..8], locals as u16);
    refs.store_bytes(&mut head[REFS_AT..REFS_END]);
}
