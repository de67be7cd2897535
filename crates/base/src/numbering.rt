// Numbers in the order of first mention: an array of the numbers given, and one of those that have them. Assumes nothing.
ghost use Rattle.std.specs.Prelude.{◌≡◌, List, [], ◌∷◌, ℕ, ◌+◌, ◌<◌, ◌≤◌, get_or, length, take};
ghost use Rattle.base.specs.Sizes.{max_number};
ghost use mathlib.Core.List.{Memᴰ};
ghost use Rattle.base.specs.Lists.{place, firsts};
ghost use Rattle.base.specs.Numbering.{Numbers, Gives, Numbered, number_of};

use std::marker::Model;

// The next number to x, where it has none yet; how many have one then. Numbers go from `first` on, 0 is none; c have one, and stand in `order` by their numbers.
pub fn give_number(
    first: usize,
    c: usize,
    x: usize,
    numbers: &mut [u16],
    order: &mut [u16],
) -> usize
    requires numbered { Numbers first numbers.old order.old c }
    requires some { 0 < first }
    requires inside { x < length numbers.old }
    requires room { length numbers.old ≤ length order.old }
    requires few { first + length numbers.old ≤ max_number + 1 }
    ensures { Gives first (x ∷ []) numbers.old order.old c numbers.new order.new result }
{
    if numbers[x] != 0 {
        return c;
    }
    numbers[x] = (first + c) as u16;
    order[c] = x as u16;
    c + 1
}

// The numbers from FIRST on that numbers below N have been given, in the order of first mention: seen as the list of those that have one.
#[derive(Drop)]
pub struct Numbering<const FIRST: usize, const N: usize> {
    // One more than the number of each, and 0 where it has none: an Option would take four bytes a place for two. (The chains of ancestors were tried with it, and took twice the instructions.)
    numbers: [u16; N],
    // Those that have numbers, in the order of these. The count is the next number too, so that an ArrayVec would be no plainer.
    order: [u16; N],
    count: usize,
}

impl<const FIRST: usize, const N: usize> Model for Numbering<FIRST, N> {
    ghost Value = { List ℕ };

    ghost view = { λ a. take a.count a.order };

    ghost invariant = { λ a. Numbered FIRST N a.numbers a.order a.count };
}

impl<const FIRST: usize, const N: usize> Numbering<FIRST, N> {
    pub fn new() -> Self
        requires { FIRST + N ≤ max_number }
        ensures { result ≡ [] }
    {
        Numbering {
            numbers: [0; N],
            order: [0; N],
            count: 0,
        }
    }

    // The next number to x, where it has none yet.
    pub fn give(&mut self, x: usize)
        requires { x < N }
        ensures { self.new ≡ firsts self.old (x ∷ []) }
    {
        let count = self.count;
        self.count = give_number(FIRST + 1, count, x, &mut self.numbers, &mut self.order);
    }

    // The number of x.
    pub fn number(&self, x: usize) -> Option<u16>
        requires { x < N }
        ensures { result ≡ number_of FIRST self.now x }
    {
        self.numbers[x].checked_sub(1)
    }

    // The number of x, which has one.
    pub fn number_of(&self, x: u16) -> u16
        requires { Memᴰ x self.now }
        ensures number { result ≡ FIRST + place x self.now }
        ensures below { result < FIRST + N }
    {
        self.numbers[usize::from(x)] - 1
    }

    // Those that have numbers, in the order of these.
    pub fn order(&self) -> &[u16]
        ensures order { result.now ≡ self.now }
        ensures below { (i : ℕ) → i < length self.now → get_or self.now i 0 < N }
        ensures few { length self.now ≤ N }
    {
        &self.order[..self.count]
    }
}
