// The blocks by offset: the lower of each, and the upper of the block that an offset stands in. Assumes nothing.
ghost use Rattle.std.specs.Prelude.{◌≡◌, false, List, ℕ, ◌≤◌, ◌<◌, get_or, length, take};
ghost use Rattle.base.specs.Sizes.{max_instructions};
ghost use Rattle.stackless_bytecode.specs.declared.Bytecode.{Bytecode};
ghost use Rattle.stackless_bytecode.specs.Successors.{successors};
ghost use Rattle.stackless_control_flow_graph.specs.Arrays.{offsets_of, Within, marks_of, marked_in, Marked, Uppers, BlockAt, BlocksFound};
ghost use Rattle.stackless_control_flow_graph.specs.Blocks.{lowers, blocks_of, upper_of};
ghost use Rattle.sheet.specs.Code.{code_in};

use crate::starts::visit_all;
use crate::{Block, Successors};
use base::MAX_INSTRUCTIONS;
use sheet::accepted::ResolvedSheet;

// A mark for each offset, and one behind the last.
const MARKS: usize = MAX_INSTRUCTIONS + 1;

// The lower of each block, by offset, to the front of `lowers`; how many blocks, counted as they are met. The marks are one more than the n offsets.
pub fn list_lowers(marks: &[bool], n: usize, lowers: &mut [u16]) -> usize
    requires marks { n ≤ length marks.now }
    requires room { n ≤ length lowers.old }
    requires few { n ≤ max_instructions }
    ensures lowers { take result lowers.new ≡ marked_in marks.now n }
    ensures count { result ≡ length (marked_in marks.now n) }
    ensures within { result ≤ n }
{
    let mut c = 0;
    for k in 0..n {
        if marks[k] {
            lowers[c] = k as u16;
            c += 1;
        }
    }
    c
}

// The upper of the block of each offset, from the last offset to the first.
pub fn find_uppers(marks: &[bool], n: usize, uppers: &mut [u16])
    requires marks { n ≤ length marks.now }
    requires room { n ≤ length uppers.old }
    requires few { n ≤ max_instructions }
    ensures { (code : List Bytecode) → length code ≡ n → Marked code marks.now → Uppers code uppers.new }
{
    let mut end = n;
    for k in (0..n).rev() {
        uppers[k] = (end - 1) as u16;
        if marks[k] {
            end = k;
        }
    }
}

// The first n marks out of bytes: 1 is marked, and no other byte is.
fn read_marks(bytes: &[u8], n: usize, marks: &mut [bool])
    requires bytes { n ≤ length bytes.now }
    requires room { n ≤ length marks.old }
    ensures { (k : ℕ) → k < n → get_or marks.new k false ≡ get_or (marks_of bytes.now) k false }
{
    for k in 0..n {
        marks[k] = bytes[k] == 1;
    }
}

// The same as `list_lowers`, of marks that are bytes: 1 is marked, and no other byte is.
pub fn list_lowers_of_bytes(bytes: &[u8], n: usize, lowers: &mut [u16]) -> usize
    requires bytes { n ≤ length bytes.now }
    requires room { n ≤ length lowers.old }
    requires few { n ≤ max_instructions }
    ensures lowers { take result lowers.new ≡ marked_in (marks_of bytes.now) n }
    ensures count { result ≡ length (marked_in (marks_of bytes.now) n) }
    ensures within { result ≤ n }
{
    let mut marks = [false; MARKS];
    read_marks(bytes, n, &mut marks);
    list_lowers(&marks, n, lowers)
}

// The same as `find_uppers`, of marks that are bytes: 1 is marked, and no other byte is.
pub fn find_uppers_of_bytes(bytes: &[u8], n: usize, uppers: &mut [u16])
    requires bytes { n ≤ length bytes.now }
    requires room { n ≤ length uppers.old }
    requires few { n ≤ max_instructions }
    ensures { (code : List Bytecode) → length code ≡ n → Marked code (marks_of bytes.now) → Uppers code uppers.new }
{
    let mut marks = [false; MARKS];
    read_marks(bytes, n, &mut marks);
    find_uppers(&marks, n, uppers);
}

// The bounds of block b, by the place of its lower.
pub fn block_at(lowers: &[u16], uppers: &[u16], b: usize) -> Block
    requires inside { b < length lowers.now }
    requires upper { get_or lowers.now b 0 < length uppers.now }
    ensures { BlockAt lowers.now uppers.now b result.lower result.upper }
{
    let lower = usize::from(lowers[b]);
    let upper = usize::from(uppers[lower]);
    Block { lower, upper }
}

// The blocks of a sheet, into what is lent: the successors of each offset, the lowers by offset to the front of `lowers`, and the upper of the block of each offset. The result is how many blocks.
pub fn find_blocks(
    sheet: ResolvedSheet<'_>,
    goes: &mut [Successors],
    lowers: &mut [u16],
    uppers: &mut [u16],
) -> usize
    requires goes { sheet.count ≤ length goes.old }
    requires lowers { sheet.count ≤ length lowers.old }
    requires uppers { sheet.count ≤ length uppers.old }
    ensures found { BlocksFound (code_in sheet.entry) goes.new (take result lowers.new) uppers.new }
    ensures few { result ≤ sheet.entry.count }
{
    let mut marks = [false; MARKS];
    visit_all(sheet, goes, &mut marks);
    find_uppers(&marks, sheet.count, uppers);
    list_lowers(&marks, sheet.count, lowers)
}

// Arrays for the blocks of the largest code. They are lent, since an array by value is copied where it is handed on: three copies took 1.2 microseconds a flow.
#[derive(Drop)]
pub struct BlockArrays {
    goes: [Successors; MAX_INSTRUCTIONS],
    lowers: [u16; MAX_INSTRUCTIONS],
    uppers: [u16; MAX_INSTRUCTIONS],
}

impl BlockArrays {
    pub fn new() -> BlockArrays {
        BlockArrays {
            goes: [Successors::None; MAX_INSTRUCTIONS],
            lowers: [0; MAX_INSTRUCTIONS],
            uppers: [0; MAX_INSTRUCTIONS],
        }
    }

    // The blocks of a sheet.
    pub fn find<'a>(&'a mut self, sheet: ResolvedSheet<'a>) -> Blocks<'a>
        ensures { result.sheet ≡ sheet.entry }
    {
        let count = find_blocks(sheet, &mut self.goes, &mut self.lowers, &mut self.uppers);
        Blocks {
            sheet,
            goes: &self.goes,
            lowers: &self.lowers[..count],
            uppers: &self.uppers,
        }
    }
}

// The blocks of a sheet's code: the successors of each offset, the lower of each block, by offset, and the upper of the block of each offset.
#[derive(Clone, Copy)]
pub struct Blocks<'a> {
    pub sheet: ResolvedSheet<'a>,
    pub goes: &'a [Successors],
    pub lowers: &'a [u16],
    pub uppers: &'a [u16],
    pub ghost found: { BlocksFound (code_in sheet) goes.now lowers.now uppers.now },
}

impl<'a> Blocks<'a> {
    // The lower of each, by offset.
    #[tactic(auto, unfolding(crate::specs::Blocks::blocks_of))]
    pub fn lowers(self) -> &'a [u16]
        ensures lowers { result.now ≡ lowers (code_in self.entry.sheet) }
        ensures count { length result.now ≡ blocks_of (code_in self.entry.sheet) }
    {
        self.lowers
    }

    // The upper of the block of an offset.
    pub fn upper(self, offset: u16) -> u16
        requires { offset < length (code_in self.sheet) }
        ensures upper { result ≡ upper_of (code_in self.entry.sheet) offset }
        ensures inside { result < length (code_in self.entry.sheet) }
    {
        self.uppers[usize::from(offset)]
    }

    // Where the instruction at an offset goes.
    pub fn successors(self, offset: u16) -> Successors
        requires { offset < length (code_in self.sheet) }
        ensures successors { offsets_of result ≡ successors (code_in self.entry.sheet) offset }
        ensures within { Within max_instructions (offsets_of result) }
    {
        self.goes[usize::from(offset)]
    }

    // Where the block of an offset goes.
    pub fn next(self, offset: u16) -> Successors
        requires { offset < length (code_in self.sheet) }
        ensures next { offsets_of result ≡ successors (code_in self.entry.sheet) (upper_of (code_in self.entry.sheet) offset) }
        ensures within { Within max_instructions (offsets_of result) }
    {
        self.successors(self.upper(offset))
    }
}
