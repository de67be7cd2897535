// The checks of the whole of a class set, before a byte is written. Assumes nothing.
ghost use Rattle.std.specs.Prelude.{◌≡◌, OnOk};
ghost use Rattle.class_set.specs.ClassSet.{sheets_in, check_class};
ghost use Rattle.class_set.specs.Room.{ClassRoom};

use crate::cut::starts_at;
use base::{ANSWER_NUMBERS, BLOCK_BYTES, LIVE_BYTES, MAX_SHEETS, Refusal};

// 1, 16, 17 and 9, of a class set of m sheets.
#[tactic(auto, unfolding(crate::specs::ClassSet::check_class))]
pub fn check_class(sheets: &[u8], m: usize, lent: usize, numbers: usize) -> Result<(), Refusal>
    requires { m ≡ sheets_in sheets.now }
    ensures verdict { result ≡ check_class sheets.now lent numbers }
    ensures room { OnOk result (ClassRoom sheets.now lent numbers) }
{
    if sheets.is_empty() || sheets.len() % BLOCK_BYTES != 0 {
        return Err(Refusal::Length);
    }
    if !starts_at(sheets, 0) {
        return Err(Refusal::FirstBlock);
    }
    if MAX_SHEETS < m {
        return Err(Refusal::TooManySheets);
    }
    if lent < LIVE_BYTES * m || numbers < ANSWER_NUMBERS * m {
        return Err(Refusal::OutputShort);
    }
    Ok(())
}
