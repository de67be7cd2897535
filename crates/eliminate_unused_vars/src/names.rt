// The locals of a sheet that stay, by their new numbers: first the user locals, then the others in the order of first mention, record by record. Assumes nothing.
ghost use Rattle.std.specs.Prelude.{◌≡◌, List, ℕ, ◌<◌, ◌≤◌, get_or, length};
ghost use mathlib.Core.List.{Memᴰ};
ghost use Rattle.base.specs.Sizes.{max_locals};
ghost use Rattle.base.specs.Lists.{firsts};
ghost use Rattle.livevar_analysis.specs.Rules.{InRange};
ghost use Rattle.eliminate_unused_vars.specs.Remap.{mentions, new_number};
ghost use Rattle.eliminate_unused_vars.specs.Renumber.{staying_in};
ghost use Rattle.eliminate_unused_vars.specs.Names.{NameRoom, Named};

use base::MAX_LOCALS;
use base::numbering::Numbering;
use sheet::accepted::AcceptedSheet;
use sheet::reader::user_locals_of;
use stackless_bytecode::Bytecode;
use std::marker::Model;

// What an array of names has for the local with new number 0: 0 is none.
pub const FIRST_NAME: usize = 1;

// Locals that have new numbers: seen as their list, in the order of the numbers.
#[derive(Drop)]
pub struct Names {
    numbers: Numbering<0, MAX_LOCALS>,
}

impl Model for Names {
    ghost Value = { List ℕ };

    ghost view = { λ a. a.numbers };
}

impl Names {
    // All locals of a sheet that stay.
    #[tactic(auto, using(crate::specs::NamesLaws::user_next, crate::specs::NamesLaws::code_next, crate::specs::NamesLaws::range_at, crate::specs::NamesLaws::all_named), unfolding(base::specs::Lists::firsts, base::specs::Lists::tab, sheet::specs::Layout::user_locals_of))]
    pub fn of(sheet: AcceptedSheet<'_>) -> Names
        ensures { result ≡ staying_in sheet.entry.bytes.now }
    {
        let mut numbers = Numbering::new();
        for user in 0..user_locals_of(sheet.bytes) {
            numbers.give(usize::from(user));
        }
        let mut names = Names { numbers };
        for k in 0..sheet.count {
            names.name_mentions(sheet.instruction(k));
        }
        names
    }

    // Numbers for the locals of a list that have none yet.
    #[tactic(auto, using(crate::specs::NamesLaws::list_next), unfolding(base::specs::Lists::firsts))]
    fn name_list(&mut self, list: &[u8])
        requires { (i : ℕ) → i < length list.now → get_or list.now i 0 < max_locals }
        ensures { self.new ≡ firsts self.old list.now }
    {
        for &local in list {
            self.numbers.give(usize::from(local));
        }
    }

    // For what an instruction mentions: destinations, sources, the abort local of a flagged Call.
    #[tactic(auto, using(base::specs::GrowLaws::firsts_append), unfolding(crate::specs::Remap::mentions, stackless_bytecode::specs::Kinds::dsts_of, stackless_bytecode::specs::Kinds::srcs_of, base::specs::Lists::firsts))]
    fn name_mentions(&mut self, r: Bytecode)
        requires { InRange r }
        ensures { self.new ≡ firsts self.old (mentions r) }
    {
        self.name_list(r.destinations());
        self.name_list(r.sources());
        if let Some(local) = r.abort_local() {
            self.numbers.give(usize::from(local));
        }
    }

    // The new number of a local that has one.
    #[tactic(auto, unfolding(crate::specs::Remap::new_number))]
    pub fn number(&self, local: u8) -> u8
        requires { Memᴰ local self.now }
        ensures { result ≡ new_number self.now local }
    {
        self.numbers.number_of(u16::from(local)) as u8
    }

    // The locals that have numbers, in the order of these.
    pub fn locals(&self) -> &[u16]
        ensures order { result.now ≡ self.now }
        ensures below { (i : ℕ) → i < length self.now → get_or self.now i 0 < max_locals }
        ensures few { length self.now ≤ max_locals }
    {
        self.numbers.order()
    }
}

// The names of all locals of a sheet that stay, into the lent arrays: by local, one more than its new number; and the locals by new number. How many they are.
pub fn name_locals(sheet: AcceptedSheet<'_>, numbers: &mut [u16], order: &mut [u16]) -> usize
    requires { NameRoom numbers.old order.old }
    ensures { Named (staying_in sheet.entry.bytes.now) numbers.new order.new result }
{
    let names = Names::of(sheet);
    let locals = names.locals();
    for (i, &local) in locals.iter().enumerate() {
        numbers[usize::from(local)] = (FIRST_NAME + i) as u16;
        order[i] = local;
    }
    locals.len()
}
