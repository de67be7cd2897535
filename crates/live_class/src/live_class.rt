// The call live_class: the checks of the whole, then live for each sheet, which is handed on as the part of the class set that it is. Assumes nothing.
ghost use Rattle.std.specs.Prelude.{◌≡◌, ◌++◌, ◌*◌, ◌≤◌, length, drop, OnOk};
ghost use Rattle.base.specs.Sizes.{slot_bytes, answer_numbers};
ghost use Rattle.base.specs.Lists.{joins};
ghost use Rattle.base.specs.Refusals.{answer_of, output_after};
ghost use Rattle.livevar_analysis.specs.Analysis.{live_reply};
ghost use Rattle.class_set.specs.ClassSet.{sheets_in, alone_at, slot_after, numbers_of, sets_reply, answers_reply};
ghost use Rattle.class_set.specs.ClassMeaning.{ClassMeaning};

use base::{ANSWER_NUMBERS, BLOCK_BYTES, LIVE_BYTES, Refusal};
use class_set::check::check_class;
use class_set::cut::{count_sheets, next_start};
use live::analysis::live;

// One sheet, by the call live: its sets, and its three numbers.
fn live_sheet(sheet: &[u8], sets: &mut [u8]) -> [u32; ANSWER_NUMBERS]
    ensures sets_after { sets.new ≡ output_after (live_reply sheet.now (length sets.old)) sets.old }
    ensures answer { result ≡ numbers_of (answer_of (live_reply sheet.now (length sets.old))) }
{
    match live(sheet, sets) {
        Ok(taken) => [0, 0, taken],
        Err(f) => [u32::from(f.number()), u32::from(f.place()), 0],
    }
}

// Every one of the m sheets. Their parts are lent by index: of what is written through chunks_exact_mut a proof knows the length alone.
fn live_sheets(sheets: &[u8], m: usize, sets: &mut [u8], answers: &mut [u32])
    requires count { m ≡ sheets_in sheets.now }
    requires sets { slot_bytes * m ≤ length sets.old }
    requires answers { answer_numbers * m ≤ length answers.old }
    ensures sets_after { sets.new ≡ joins m (slot_after sheets.now sets.old) ++ drop (slot_bytes * m) sets.old }
    ensures answers_after { answers.new ≡ joins m (λ k. numbers_of (answer_of (alone_at sheets.now k))) ++ drop (answer_numbers * m) answers.old }
{
    let mut start = next_start(sheets, 0);
    for k in 0..m {
        let next = next_start(sheets, start + 1);
        let sheet = &sheets[BLOCK_BYTES * start..BLOCK_BYTES * next];
        let low = LIVE_BYTES * k;
        let one = ANSWER_NUMBERS * k;
        let answer = live_sheet(sheet, &mut sets[low..low + LIVE_BYTES]);
        answers[one..one + ANSWER_NUMBERS].copy_from_slice(&answer);
        start = next;
    }
}

// The live call over a class set: how many sheets, the sets of each at the front of its own 16,384 bytes, and its three numbers. Its last clause: what that
// says of each sheet, term 3 with it.
#[tactic(auto, unfolding(class_set::specs::ClassSet::sets_reply, class_set::specs::ClassSet::answers_reply))]
pub fn live_class(sheets: &[u8], sets: &mut [u8], answers: &mut [u32]) -> Result<u32, Refusal>
    ensures result { result ≡ answer_of (sets_reply sheets.now sets.old (length answers.old)) }
    ensures written { sets.new ≡ output_after (sets_reply sheets.now sets.old (length answers.old)) sets.old }
    ensures answered { answers.new ≡ output_after (answers_reply sheets.now (length sets.old) (length answers.old)) answers.old }
    ensures means { OnOk result (ClassMeaning sheets.now sets.old answers.old sets.new answers.new) }
{
    let m = count_sheets(sheets);
    check_class(sheets, m, sets.len(), answers.len())?;
    live_sheets(sheets, m, sets, answers);
    Ok(m as u32)
}
