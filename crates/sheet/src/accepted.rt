// A sheet that all checks accept, as what works on its code takes it; and the same with the offsets of its labels. Assumes nothing.
ghost use Rattle.std.specs.Prelude.{◌≡◌, ◌<◌, ◌≤◌, length};
ghost use Rattle.base.specs.Bytes.{Bytes};
ghost use Rattle.base.specs.Sizes.{max_instructions};
ghost use Rattle.base.specs.Refusals.{Accepted};
ghost use Rattle.stackless_bytecode.specs.Kinds.{at};
ghost use Rattle.sheet.specs.Layout.{count_of, code_of};
ghost use Rattle.sheet.specs.Checks.{check_sheet};
ghost use Rattle.sheet.specs.Shaped.{Shaped};
ghost use Rattle.sheet.specs.Accepted.{CheckedSheet};

use crate::shaped::ShapedSheet;
use stackless_bytecode::Bytecode;

// The bytes, and how many instructions they have. Each of the three types has its fields and facts for itself, so that a clause names the bytes and the count of any of them alike.
#[derive(Clone, Copy)]
pub struct AcceptedSheet<'a> {
    pub bytes: &'a [u8],
    pub count: usize,
    pub ghost accepted: { check_sheet bytes.now ≡ Accepted },
    pub ghost shaped: { Shaped bytes.now count },
    pub ghost size: { length (code_of bytes.now) ≡ count },
    pub ghost few: { count ≤ max_instructions },
    pub ghost fits: { Bytes bytes.now },
}

// With two places for each instruction, which have the offsets of the labels that it names.
#[derive(Clone, Copy)]
pub struct ResolvedSheet<'a> {
    pub bytes: &'a [u8],
    pub count: usize,
    pub targets: &'a [u16],
    pub ghost checked: { CheckedSheet bytes.now count targets.now },
    pub ghost shaped: { Shaped bytes.now count },
    pub ghost size: { length (code_of bytes.now) ≡ count },
    pub ghost few: { count ≤ max_instructions },
    pub ghost fits: { Bytes bytes.now },
}

impl<'a> AcceptedSheet<'a> {
    pub fn new(bytes: &'a [u8], count: usize) -> AcceptedSheet<'a>
        requires accepted { check_sheet bytes.now ≡ Accepted }
        requires count { count ≡ count_of bytes.now }
        ensures bytes { result.bytes.now ≡ bytes.entry.now }
        ensures count { result.count ≡ count }
    {
        AcceptedSheet { bytes, count }
    }

    // As the checks behind the first four take it.
    pub fn shaped(self) -> ShapedSheet<'a>
        ensures bytes { result.bytes.now ≡ self.entry.bytes.now }
        ensures count { result.count ≡ self.entry.count }
    {
        ShapedSheet {
            bytes: self.bytes,
            count: self.count,
        }
    }

    // The instruction at offset k.
    pub fn instruction(self, k: usize) -> Bytecode
        requires { k < self.count }
        ensures { result ≡ at (code_of self.entry.bytes.now) k }
    {
        self.shaped().instruction(k)
    }
}

impl<'a> ResolvedSheet<'a> {
    pub fn new(bytes: &'a [u8], count: usize, targets: &'a [u16]) -> ResolvedSheet<'a>
        requires { CheckedSheet bytes.now count targets.now }
        ensures bytes { result.bytes.now ≡ bytes.entry.now }
        ensures count { result.count ≡ count }
        ensures targets { result.targets.now ≡ targets.entry.now }
    {
        ResolvedSheet {
            bytes,
            count,
            targets,
        }
    }

    // Without the offsets.
    pub fn accepted(self) -> AcceptedSheet<'a>
        ensures bytes { result.bytes.now ≡ self.entry.bytes.now }
        ensures count { result.count ≡ self.entry.count }
    {
        AcceptedSheet {
            bytes: self.bytes,
            count: self.count,
        }
    }

    // The instruction at offset k.
    pub fn instruction(self, k: usize) -> Bytecode
        requires { k < self.count }
        ensures { result ≡ at (code_of self.entry.bytes.now) k }
    {
        self.accepted().instruction(k)
    }
}
