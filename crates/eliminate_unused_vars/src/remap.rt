// Lists, instructions and code under the new numbers. Assumes nothing.
ghost use Rattle.std.specs.Prelude.{◌≡◌, List, map, ℕ, ◌*◌, ◌<◌, ◌≤◌, get_or, length};
ghost use mathlib.Core.List.{Memᴰ};
ghost use Rattle.base.specs.Sizes.{list_places, record_bytes, max_instructions};
ghost use Rattle.sheet.specs.Layout.{padded};
ghost use Rattle.sheet_writer.specs.Written.{placed};
ghost use Rattle.eliminate_unused_vars.specs.Names.{NumbersIn};
ghost use Rattle.eliminate_unused_vars.specs.Remap.{new_number, remap};
ghost use Rattle.eliminate_unused_vars.specs.Remaps.{Remaps};
ghost use Rattle.eliminate_unused_vars.specs.Renumber.{staying_in, renumbered_code};

use crate::names::{FIRST_NAME, Names};
use base::{LIST_PLACES, RECORD_BYTES};
use sheet::accepted::AcceptedSheet;
use sheet_writer::writer::encode;
use stackless_bytecode::Bytecode;

// New numbers of the locals that stay.
pub trait NewNumbers {
    ghost stay: { Self → List ℕ };

    // The new number of a local that stays.
    fn new_number(&self, local: u8) -> u8
        requires { Memᴰ local (stay self.now) }
        ensures { result ≡ new_number (stay self.now) local };
}

impl NewNumbers for Names {
    ghost stay = { λ a. a };

    fn new_number(&self, local: u8) -> u8 {
        self.number(local)
    }
}

// The new numbers of a sheet's locals in an array: one more than the number of each that stays.
#[derive(Clone, Copy)]
pub struct NumberArray<'a> {
    pub sheet: AcceptedSheet<'a>,
    pub numbers: &'a [u16],
    pub ghost named: { NumbersIn (staying_in sheet.bytes.now) numbers.now },
}

impl NewNumbers for NumberArray<'_> {
    ghost stay = { λ a. staying_in a.sheet.bytes.now };

    fn new_number(&self, local: u8) -> u8 {
        (usize::from(self.numbers[usize::from(local)]) - FIRST_NAME) as u8
    }
}

// The places of a list under the new numbers.
#[tactic(auto, using(crate::specs::RemapCodeLaws::renamed_all))]
fn remap_list<N: NewNumbers>(list: &[u8], names: &N) -> [u8; LIST_PLACES]
    requires few { length list.now ≤ list_places }
    requires named { (i : ℕ) → i < length list.now → Memᴰ (get_or list.now i 0) (N.stay names.now) }
    ensures { result ≡ padded (map (new_number (N.stay names.now)) list.now) }
{
    let mut new = [0u8; LIST_PLACES];
    for (i, &local) in list.iter().enumerate() {
        new[i] = names.new_number(local);
    }
    new
}

// An instruction under the new numbers.
#[tactic(auto, using(crate::specs::RemapLaws::dsts_stay, crate::specs::RemapLaws::srcs_stay, crate::specs::RemapLaws::abort_stays), unfolding(crate::specs::Remap::remap, stackless_bytecode::specs::Kinds::dsts_of, stackless_bytecode::specs::Kinds::srcs_of))]
fn remap_all_vars<N: NewNumbers>(r: Bytecode, names: &N) -> Bytecode
    requires { Remaps (N.stay names.now) r }
    ensures { result ≡ remap (N.stay names.now) r }
{
    let abort = match r.abort_local() {
        Some(local) => names.new_number(local),
        None => r.abort,
    };
    Bytecode {
        abort,
        dsts: remap_list(r.destinations(), names),
        srcs: remap_list(r.sources(), names),
        ..r
    }
}

// The records of a sheet's code under the new numbers, one behind the other at the front of `flat`. They are lent by index: of what is written through chunks_exact_mut a proof knows the length alone.
#[tactic(auto, using(crate::specs::RemapLaws::remaps_at, crate::specs::RemapCodeLaws::renumbered_next))]
pub fn remap_code<N: NewNumbers>(sheet: AcceptedSheet<'_>, names: &N, flat: &mut [u8])
    requires all { N.stay names.now ≡ staying_in sheet.bytes.now }
    requires room { record_bytes * max_instructions ≤ length flat.old }
    ensures { flat.new ≡ placed (renumbered_code sheet.entry.bytes.now) flat.old }
{
    for k in 0..sheet.count {
        let at = RECORD_BYTES * k;
        encode(
            remap_all_vars(sheet.instruction(k), names),
            &mut flat[at..at + RECORD_BYTES],
        );
    }
}
