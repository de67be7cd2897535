// A sheet that checks 1 to 4 let through, as the other checks take it. Assumes nothing.
ghost use Rattle.std.specs.Prelude.{◌≡◌, ◌<◌, ◌≤◌, length};
ghost use Rattle.base.specs.Bytes.{Bytes};
ghost use Rattle.base.specs.Sizes.{max_instructions};
ghost use Rattle.stackless_bytecode.specs.Kinds.{at};
ghost use Rattle.sheet.specs.Layout.{code_of};
ghost use Rattle.sheet.specs.Shaped.{Shaped};

use crate::reader;
use stackless_bytecode::Bytecode;

// The bytes, and how many instructions they have.
#[derive(Clone, Copy)]
pub struct ShapedSheet<'a> {
    pub bytes: &'a [u8],
    pub count: usize,
    pub ghost shaped: { Shaped bytes.now count },
    pub ghost size: { length (code_of bytes.now) ≡ count },
    pub ghost few: { count ≤ max_instructions },
    pub ghost fits: { Bytes bytes.now },
}

impl<'a> ShapedSheet<'a> {
    pub fn new(bytes: &'a [u8], count: usize) -> ShapedSheet<'a>
        requires { Shaped bytes.now count }
        ensures bytes { result.bytes.now ≡ bytes.entry.now }
        ensures count { result.count ≡ count }
    {
        ShapedSheet { bytes, count }
    }

    // The instruction at offset k.
    pub fn instruction(self, k: usize) -> Bytecode
        requires { k < self.count }
        ensures { result ≡ at (code_of self.entry.bytes.now) k }
    {
        reader::instruction_at(self.bytes, k)
    }
}
