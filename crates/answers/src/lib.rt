// What a call that writes into a lent output answers.
#![tactic(auto)]

ghost use Rattle.std.specs.Prelude.{◌≡◌, ℕ};
ghost use Rattle.answers.specs.Written.{written_as};
ghost use Rattle.answers.specs.declared.Unwritten.TheVariants.{Refused};

use numbers::refusals::Refusal;

// Why nothing is written: a refusal, or 18 with the length that the output needs.
#[derive(Clone, Copy, Debug, PartialEq, Eq)]
pub enum Unwritten {
    Refused(Refusal),
    Short(usize),
}

impl From<Refusal> for Unwritten {
    ghost from_gives = { λ r e. e ≡ Refused r };

    fn from(refusal: Refusal) -> Unwritten {
        Unwritten::Refused(refusal)
    }
}

// The same in numbers, as C callers read it. Code 0: so many bytes are written, and zeros follow them. 18: the output is too short, with the length needed. Else the refusal,
// with 0.
#[repr(C)]
#[derive(Clone, Copy)]
pub struct Written {
    pub code: u32,
    pub length: usize,
}

impl From<Result<usize, Unwritten>> for Written {
    ghost from_gives = { λ r w. w ≡ written_as r };

    fn from(answer: Result<usize, Unwritten>) -> Written {
        match answer {
            Ok(length) => Written { code: 0, length },
            Err(Unwritten::Refused(refusal)) => Written {
                code: refusal.number(),
                length: 0,
            },
            Err(Unwritten::Short(length)) => Written {
                code: Refusal::OutputShort.number(),
                length,
            },
        }
    }
}
