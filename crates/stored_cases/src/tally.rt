// Counts of what came, and what is printed. Assumes nothing.
ghost use Rattle.std.specs.Prelude.{◌≡◌, get_or};
ghost use Rattle.stored_cases.specs.Ops.{number_of};
ghost use Rattle.stored_cases.specs.Tallies.{more, no_cases, differing, counted};

use crate::op::Op;
use std::io;

// A case that was asked: its op, whether its answer was made wrong, and whether the call answered as it is stored.
#[derive(Clone, Copy)]
pub struct Asked {
    pub op: Op,
    pub wrong: bool,
    pub same: bool,
}

// What is printed of each op: its name, and what it is asked of.
const LINES: [(Op, &str, &str); 10] = [
    (Op::Flow, "flow", "sheets"),
    (Op::Live, "live", "sheets"),
    (Op::Rewrite, "rewrite", "sheets"),
    (Op::InUse, "in use", "graphs"),
    (Op::Conditional, "conditional", "graphs"),
    (Op::Dying, "dying", "graphs"),
    (Op::Check, "check", "sheets"),
    (Op::Renumber, "renumber", "sheets"),
    (Op::Label, "label", "sheets"),
    (Op::LiveClass, "live class", "class sets"),
];

// The cases of each op, by its number; those of all; the differences; and the cases made wrong, and found.
#[derive(Clone, Copy)]
pub struct Tally {
    of_op: [u32; LINES.len() + 1],
    cases: u32,
    differences: u32,
    wrong: u32,
    found: u32,
}

fn add(count: &mut u32)
    ensures { count.new ≡ more count.old }
{
    *count = count.wrapping_add(1);
}

impl Tally {
    pub fn new() -> Tally
        ensures { result ≡ no_cases }
    {
        Tally {
            of_op: [0; LINES.len() + 1],
            cases: 0,
            differences: 0,
            wrong: 0,
            found: 0,
        }
    }

    // The file has no cases to ask.
    pub fn damaged_file(&mut self, rt: &impl Print) -> io::Result<()>
        ensures { self.new ≡ differing self.old }
    {
        add(&mut self.differences);
        println!(rt; "damaged")
    }

    // A line on case k that counts as a difference.
    pub fn difference(&mut self, rt: &impl Print, said: &str, k: usize) -> io::Result<()>
        ensures { self.new ≡ differing self.old }
    {
        add(&mut self.differences);
        println!(rt; "{said} case {k}")
    }

    // What came of case k, which was asked or is damaged.
    pub fn count(&mut self, rt: &impl Print, k: usize, came: Option<Asked>) -> io::Result<()>
        ensures { self.new ≡ counted self.old came }
    {
        let Some(asked) = came else {
            return self.difference(rt, "damaged", k);
        };
        if asked.wrong {
            add(&mut self.wrong);
            if asked.same {
                return self.difference(rt, "not found in", k);
            }
            add(&mut self.found);
            return Ok(());
        }
        add(&mut self.cases);
        add(&mut self.of_op[asked.op as usize]);
        if !asked.same {
            return self.difference(rt, "difference in", k);
        }
        Ok(())
    }

    // The cases of an op.
    pub fn count_of(&self, op: Op) -> u32
        ensures { result ≡ get_or self.now.of_op (number_of op) 0 }
    {
        self.of_op[op as usize]
    }

    pub fn print(&self, rt: &impl Print) -> io::Result<()> {
        for (op, name, asked) in LINES {
            println!(rt; "{name} {} {asked}", self.count_of(op))?;
        }
        println!(rt; "{} cases, {} differences", self.cases, self.differences)?;
        println!(rt; "{} made wrong, {} found", self.wrong, self.found)
    }
}
