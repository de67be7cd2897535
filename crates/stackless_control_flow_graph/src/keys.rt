// The keys of the blocks: blocks by offset, at each the successors take keys first, then the block. Assumes nothing.
ghost use Rattle.std.specs.Prelude.{◌≡◌, List, [], ◌∷◌, ◌++◌, map, ℕ, ◌<◌, ◌≤◌, get_or, length};
ghost use Rattle.base.specs.Lists.{firsts};
ghost use Rattle.base.specs.Sizes.{max_instructions};
ghost use Rattle.stackless_bytecode.specs.declared.Bytecode.{Bytecode};
ghost use Rattle.stackless_bytecode.specs.Sound.{Sound};
ghost use Rattle.sheet.specs.Code.{code_in};
ghost use Rattle.stackless_control_flow_graph.specs.Arrays.{offsets_of, Within, key_in, next_keys};
ghost use Rattle.stackless_control_flow_graph.specs.Blocks.{Start, blocks_of, keyed, key_of};
ghost use Rattle.stackless_control_flow_graph.specs.Graph.{OffsetKeys};

use crate::Successors;
use crate::blocks::{BlockArrays, Blocks};
use base::MAX_INSTRUCTIONS;
use base::numbering::Numbering;
use sheet::accepted::ResolvedSheet;

// The key of the dummy exit; that of the dummy entrance is 0.
pub const EXIT_KEY: u16 = 1;

// The first key of a block: the others follow in the order of first mention.
pub const FIRST_KEY: usize = 2;

// Keys for the block from l on: its successors first, then the block.
#[tactic(auto, using(crate::specs::NextLaws::one_below, crate::specs::NextLaws::two_below))]
fn give_block(keys: &mut Numbering<FIRST_KEY, MAX_INSTRUCTIONS>, next: Successors, l: u16)
    requires lower { l < max_instructions }
    requires within { Within max_instructions (offsets_of next) }
    ensures { keys.new ≡ firsts keys.old (offsets_of next ++ (l ∷ [])) }
{
    match next {
        Successors::None => {}
        Successors::One(a) => keys.give(usize::from(a)),
        Successors::Two(a, b) => {
            keys.give(usize::from(a));
            keys.give(usize::from(b));
        }
    }
    keys.give(usize::from(l));
}

// Keys for all blocks: blocks by offset, at each its successors, then the block.
pub fn give_all(keys: &mut Numbering<FIRST_KEY, MAX_INSTRUCTIONS>, blocks: Blocks<'_>)
    requires { keys.old ≡ [] }
    ensures { keys.new ≡ keyed (code_in blocks.entry.sheet) }
{
    for &lower in blocks.lowers() {
        give_block(keys, blocks.next(lower), lower);
    }
}

// The keys of the blocks that start at these offsets; 0 where none does.
pub fn keys_of<const N: usize>(keys: &Numbering<FIRST_KEY, N>, lowers: Successors) -> Successors
    requires { Within N (offsets_of lowers) }
    ensures { offsets_of result ≡ map (key_in keys.now) (offsets_of lowers) }
{
    match lowers {
        Successors::None => Successors::None,
        Successors::One(a) => Successors::One(keys.number(usize::from(a)).unwrap_or(0)),
        Successors::Two(a, b) => Successors::Two(
            keys.number(usize::from(a)).unwrap_or(0),
            keys.number(usize::from(b)).unwrap_or(0),
        ),
    }
}

// The same out of an array that has the key of each.
pub fn keys_in(keys: &[u16], lowers: Successors) -> Successors
    requires { Within (length keys.now) (offsets_of lowers) }
    ensures { offsets_of result ≡ map (λ o. get_or keys.now o 0) (offsets_of lowers) }
{
    match lowers {
        Successors::None => Successors::None,
        Successors::One(a) => Successors::One(keys[usize::from(a)]),
        Successors::Two(a, b) => Successors::Two(keys[usize::from(a)], keys[usize::from(b)]),
    }
}

// The key of the block of each of the first n offsets: an offset at which none starts takes that of the offset before.
pub fn spread_keys<const N: usize>(
    keys: &Numbering<FIRST_KEY, N>,
    n: usize,
    key_of_offset: &mut [u16],
)
    requires inside { n ≤ N }
    requires room { n ≤ length key_of_offset.old }
    ensures { (code : List Bytecode) → Sound code → length code ≡ n → keys.now ≡ keyed code → OffsetKeys code key_of_offset.new }
{
    let mut last = 0;
    for k in 0..n {
        if let Some(key) = keys.number(k) {
            last = key;
        }
        key_of_offset[k] = last;
    }
}

// The same in an array that has the keys of the lowers, and 0 at the other offsets.
pub fn spread_in(keys: &mut [u16], n: usize)
    requires { n ≤ length keys.old }
    ensures { (code : List Bytecode) → Sound code → length code ≡ n → ((o : ℕ) → o < length code → get_or keys.old o 0 ≡ key_in (keyed code) o) → OffsetKeys code keys.new }
{
    let mut last = 0;
    for k in 0..n {
        if keys[k] != 0 {
            last = keys[k];
        }
        keys[k] = last;
    }
}

// The blocks of a sheet's code, and their keys.
#[derive(Clone, Copy)]
pub struct KeyedBlocks<'a> {
    pub by_offset: Blocks<'a>,
    pub keys: &'a Numbering<FIRST_KEY, MAX_INSTRUCTIONS>,
    pub ghost keyed: { keys.now ≡ keyed (code_in by_offset.sheet) },
}

// The blocks of a sheet and their keys, worked out in what is lent.
pub fn find_keys<'a>(
    sheet: ResolvedSheet<'a>,
    arrays: &'a mut BlockArrays,
    keys: &'a mut Numbering<FIRST_KEY, MAX_INSTRUCTIONS>,
) -> KeyedBlocks<'a>
    requires { keys.old ≡ [] }
    ensures { result.by_offset.sheet ≡ sheet.entry }
{
    KeyedBlocks::of(arrays.find(sheet), keys)
}

impl<'a> KeyedBlocks<'a> {
    // These blocks, wherever their arrays lie, and their keys.
    pub fn of(
        by_offset: Blocks<'a>,
        keys: &'a mut Numbering<FIRST_KEY, MAX_INSTRUCTIONS>,
    ) -> KeyedBlocks<'a>
        requires { keys.old ≡ [] }
        ensures { result.by_offset ≡ by_offset.entry }
    {
        give_all(keys, by_offset);
        KeyedBlocks { by_offset, keys }
    }

    // How many blocks.
    pub fn count(self) -> usize
        ensures blocks { result ≡ blocks_of (code_in self.entry.by_offset.sheet) }
        ensures keys { result ≡ length (keyed (code_in self.entry.by_offset.sheet)) }
        ensures few { result ≤ max_instructions }
    {
        self.keys.order().len()
    }

    // The lowers in the order of their keys.
    pub fn lowers_by_key(self) -> &'a [u16]
        ensures keyed { result.now ≡ keyed (code_in self.entry.by_offset.sheet) }
        ensures few { length result.now ≤ max_instructions }
    {
        self.keys.order()
    }

    // The key of the block from `lower` on.
    #[tactic(auto, unfolding(crate::specs::Blocks::key_of))]
    pub fn key(self, lower: u16) -> u16
        requires { Start (code_in self.by_offset.sheet) lower }
        ensures { result ≡ key_of (keyed (code_in self.entry.by_offset.sheet)) lower }
    {
        self.keys.number_of(lower)
    }

    // The keys of the blocks that the block from `lower` on goes to.
    pub fn next_keys(self, lower: u16) -> Successors
        requires { Start (code_in self.by_offset.sheet) lower }
        ensures { offsets_of result ≡ next_keys (code_in self.entry.by_offset.sheet) lower }
    {
        keys_of(self.keys, self.by_offset.next(lower))
    }
}
