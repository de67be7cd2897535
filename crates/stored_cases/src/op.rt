// The calls that a case may ask, by the file's numbers. Assumes nothing.
ghost use Rattle.stored_cases.specs.Ops.{Decodes};

#[derive(Clone, Copy, PartialEq, Eq)]
pub enum Op {
    Flow = 1,
    Live = 2,
    Rewrite = 3,
    InUse = 4,
    Conditional = 5,
    Dying = 6,
    Check = 7,
    Renumber = 8,
    Label = 9,
    LiveClass = 10,
}

// A number that is no call's.
#[derive(Clone, Copy)]
pub struct UnknownOp(pub u8);

impl TryFrom<u8> for Op {
    type Error = UnknownOp;

    ghost try_from_gives = { Decodes };

    fn try_from(number: u8) -> Result<Op, UnknownOp> {
        match number {
            1 => Ok(Op::Flow),
            2 => Ok(Op::Live),
            3 => Ok(Op::Rewrite),
            4 => Ok(Op::InUse),
            5 => Ok(Op::Conditional),
            6 => Ok(Op::Dying),
            7 => Ok(Op::Check),
            8 => Ok(Op::Renumber),
            9 => Ok(Op::Label),
            10 => Ok(Op::LiveClass),
            _ => Err(UnknownOp(number)),
        }
    }
}
