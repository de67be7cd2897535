// Checks 1 to 4, one after the other, each over the whole sheet before the next. Assumes nothing.
ghost use Rattle.std.specs.Prelude.{◌≡◌, ◌+◌, ◌*◌, ◌/◌, ◌%◌, ◌≤◌, length, OnOk};
ghost use Rattle.base.specs.Sizes.{block_bytes, max_bytes, max_instructions, block_records};
ghost use Rattle.base.specs.Lists.{first_bad};
ghost use Rattle.base.specs.Refusals.{check, check_whole};
ghost use Rattle.sheet.specs.Layout.{block_at, count_of, record_blocks};
ghost use Rattle.sheet.specs.Checks.{length_ok, block_ok, heading_ok, place_ok, check_form};
ghost use Rattle.sheet.specs.Shaped.{Sized};

use crate::blocks::{first_bad_block, heading_ok, length_ok};
use crate::records::first_bad_record;
use base::Refusal;
use sheet::reader::count_of;

fn check_length(s: &[u8]) -> Result<(), Refusal>
    ensures checked { result ≡ check_whole Refusal.Length (length_ok (length s.now)) }
    ensures sized { OnOk result (Sized (length s.now)) }
{
    if length_ok(s.len()) {
        return Ok(());
    }
    Err(Refusal::Length)
}

fn check_blocks(s: &[u8]) -> Result<(), Refusal>
    requires blocks { length s.now % block_bytes ≡ 0 }
    requires high { length s.now ≤ max_bytes }
    ensures { result ≡ check Refusal.Block (first_bad (length s.now / block_bytes) 0 (λ b. block_ok (block_at s.now b) b)) }
{
    match first_bad_block(s) {
        Some(b) => Err(Refusal::Block(b as u16)),
        None => Ok(()),
    }
}

#[tactic(auto, using(sheet::specs::AcceptLaws::is_heading))]
fn check_heading(s: &[u8]) -> Result<(), Refusal>
    requires { 2 * block_bytes ≤ length s.now }
    ensures checked { result ≡ check_whole Refusal.Heading (heading_ok s.now) }
    ensures few { OnOk result (count_of s.now ≤ max_instructions) }
    ensures size { OnOk result (length s.now ≡ block_bytes * (1 + record_blocks (count_of s.now))) }
{
    if heading_ok(s) {
        return Ok(());
    }
    Err(Refusal::Heading)
}

#[tactic(auto, unfolding(sheet::specs::Layout::record_blocks))]
fn check_records(s: &[u8]) -> Result<(), Refusal>
    requires few { count_of s.now ≤ max_instructions }
    requires size { length s.now ≡ block_bytes * (1 + record_blocks (count_of s.now)) }
    ensures { result ≡ check Refusal.Record (first_bad (block_records * record_blocks (count_of s.now)) 0 (place_ok s.now)) }
{
    match first_bad_record(s, usize::from(count_of(s))) {
        Some(k) => Err(Refusal::Record(k as u16)),
        None => Ok(()),
    }
}

// Checks 1 to 4.
#[tactic(auto, unfolding(sheet::specs::Checks::check_form))]
pub fn check_form(s: &[u8]) -> Result<(), Refusal>
    ensures { result ≡ check_form s.now }
{
    check_length(s)?;
    check_blocks(s)?;
    check_heading(s)?;
    check_records(s)
}
