// Checks 1 to 4, 18 and 5 to 8, one after the other, each over the whole sheet before the next. Assumes nothing.
ghost use Rattle.std.specs.Prelude.{◌≡◌, not, ◌-◌, ◌*◌, ◌≤◌, length, OnOk, IfOk, IfErr};
ghost use Rattle.base.specs.Sizes.{max_instructions};
ghost use Rattle.base.specs.Lists.{first_bad};
ghost use Rattle.base.specs.Refusals.{check};
ghost use Rattle.stackless_bytecode.specs.Kinds.{at, stop_ok, falls_through};
ghost use Rattle.stackless_bytecode.specs.Slots.{Resolved};
ghost use Rattle.sheet.specs.Layout.{locals_of, code_of};
ghost use Rattle.sheet.specs.Checks.{locals_ok, check_code, check_sheet};
ghost use Rattle.sheet_labels.specs.Labelled.{Labelled};

use base::{MAX_INSTRUCTIONS, Refusal, SLOTS};
use sheet::accepted::ResolvedSheet;
use sheet::reader::{count_of, locals_of};
use sheet::shaped::ShapedSheet;
use sheet_form::form::check_form;
use sheet_labels::labels::{last_falls, list_labels, resolve};
use sheet_locals::locals::first_bad_local;
use sheet_stops::first_bad_stop;

// Each check makes its refusal of the offset that its search gives. One function over the refusal would need a clause of the closure that makes it, which is longer than the match.
fn check_stops(sheet: ShapedSheet<'_>) -> Result<(), Refusal>
    ensures { result ≡ check Refusal.FlaggedStop (first_bad sheet.entry.count 0 (λ k. stop_ok (at (code_of sheet.entry.bytes.now) k))) }
{
    match first_bad_stop(sheet) {
        Some(k) => Err(Refusal::FlaggedStop(k as u16)),
        None => Ok(()),
    }
}

fn check_locals(sheet: ShapedSheet<'_>) -> Result<(), Refusal>
    ensures { result ≡ check Refusal.Local (first_bad sheet.entry.count 0 (λ k. locals_ok (locals_of sheet.entry.bytes.now) (at (code_of sheet.entry.bytes.now) k))) }
{
    let locals = usize::from(locals_of(sheet.bytes));
    match first_bad_local(sheet, locals) {
        Some(k) => Err(Refusal::Local(k as u16)),
        None => Ok(()),
    }
}

// Checks 6 and 7; where they accept, `targets` has the offset of the label that each slot names.
fn check_labels(sheet: ShapedSheet<'_>, targets: &mut [u16]) -> Result<(), Refusal>
    requires { 2 * sheet.count ≤ length targets.old }
    ensures { Labelled (code_of sheet.entry.bytes.now) sheet.entry.count result targets.new }
{
    let mut labels = [0u16; MAX_INSTRUCTIONS];
    let mut places = [0u16; MAX_INSTRUCTIONS];
    match list_labels(sheet, &mut labels, &mut places) {
        Err(k) => Err(Refusal::LabelRepeated(k as u16)),
        Ok(m) => match resolve(sheet, &labels[..m], &places[..m], targets) {
            Some(k) => Err(Refusal::LabelUndefined(k as u16)),
            None => Ok(()),
        },
    }
}

fn check_end(sheet: ShapedSheet<'_>) -> Result<(), Refusal>
    ensures { result ≡ check Refusal.FallsThrough (first_bad 1 (sheet.entry.count - 1) (λ k. not (falls_through (at (code_of sheet.entry.bytes.now) k)))) }
{
    if last_falls(sheet) {
        return Err(Refusal::FallsThrough((sheet.count - 1) as u16));
    }
    Ok(())
}

// Checks 18 and 5 to 8.
fn check_code(sheet: ShapedSheet<'_>, targets: &mut [u16]) -> Result<(), Refusal>
    requires { 2 * sheet.count ≤ length targets.old }
    ensures checked { result ≡ check_code (locals_of sheet.entry.bytes.now) (code_of sheet.entry.bytes.now) }
    ensures resolved { OnOk result (Resolved (code_of sheet.entry.bytes.now) targets.new) }
{
    check_stops(sheet)?;
    check_locals(sheet)?;
    check_labels(sheet, targets)?;
    check_end(sheet)
}

// All checks of a sheet; where they accept, `targets` has the offset of the label that each slot names, two slots an instruction.
#[tactic(auto, unfolding(sheet::specs::Checks::check_sheet))]
pub fn check_into(s: &[u8], targets: &mut [u16]) -> Result<(), Refusal>
    requires { 2 * max_instructions ≤ length targets.old }
    ensures checked { result ≡ check_sheet s.now }
    ensures resolved { OnOk result (Resolved (code_of s.now) targets.new) }
{
    check_form(s)?;
    check_code(ShapedSheet::new(s, usize::from(count_of(s))), targets)
}

// All checks of a sheet: any slice gets its answer.
pub fn check(s: &[u8]) -> Result<(), Refusal>
    ensures { result ≡ check_sheet s.now }
{
    let mut targets = [0u16; SLOTS];
    check_into(s, &mut targets)
}

// The sheet that these bytes are, if all checks accept it; `targets` has the offset of the label that each slot names.
pub fn read<'a>(bytes: &'a [u8], targets: &'a mut [u16]) -> Result<ResolvedSheet<'a>, Refusal>
    requires { 2 * max_instructions ≤ length targets.old }
    ensures accepted { IfOk result (λ sheet. sheet.bytes.now ≡ bytes.entry.now) }
    ensures refused { IfErr result (λ e. check_sheet bytes.entry.now ≡ Err e) }
{
    check_into(bytes, targets)?;
    Ok(ResolvedSheet::new(bytes, usize::from(count_of(bytes)), targets))
}
