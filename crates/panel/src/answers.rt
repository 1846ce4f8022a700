// What C gets of each answer: its numbers beside 0, or the number of a refusal beside zeros. The C interface has the number in the struct, where
// in Rattle an answer is a Result.
ghost use Rattle.std.specs.Prelude.{◌≡◌};
ghost use Rattle.panel.specs.Answers.{book_from, record_from, written_from, class_from, strength_from, drawn_from, amount_from, listing_from, first_from};

use book::Place;
use class::Class;
use depths::Unlisted;
use drawn::Point;
use refusal::Refusal;
use strength::Strength;

#[repr(C)]
#[derive(Clone, Copy)]
pub struct BookAnswer {
    pub refusal: u32,
    pub count: u32,
}

impl From<Result<u32, Refusal>> for BookAnswer {
    ghost from_gives = { λ r a. a ≡ book_from r };

    fn from(answer: Result<u32, Refusal>) -> BookAnswer {
        match answer {
            Ok(count) => BookAnswer { refusal: 0, count },
            Err(refusal) => BookAnswer {
                refusal: refusal.into(),
                count: 0,
            },
        }
    }
}

#[repr(C)]
#[derive(Clone, Copy)]
pub struct RecordAnswer {
    pub refusal: u32,
    pub at: u32,
    pub len: u32,
}

impl From<Result<Place, Refusal>> for RecordAnswer {
    ghost from_gives = { λ r a. a ≡ record_from r };

    fn from(answer: Result<Place, Refusal>) -> RecordAnswer {
        match answer {
            Ok(Place { at, len }) => RecordAnswer {
                refusal: 0,
                at,
                len,
            },
            Err(refusal) => RecordAnswer {
                refusal: refusal.into(),
                at: 0,
                len: 0,
            },
        }
    }
}

#[repr(C)]
#[derive(Clone, Copy)]
pub struct Written {
    pub refusal: u32,
    pub len: u32,
}

impl From<Result<u32, Refusal>> for Written {
    ghost from_gives = { λ r a. a ≡ written_from r };

    fn from(answer: Result<u32, Refusal>) -> Written {
        match answer {
            Ok(len) => Written { refusal: 0, len },
            Err(refusal) => Written {
                refusal: refusal.into(),
                len: 0,
            },
        }
    }
}

#[repr(C)]
#[derive(Clone, Copy)]
pub struct ClassAnswer {
    pub refusal: u32,
    pub step: u32,
    pub letter: u32,
}

impl From<Result<Class, Refusal>> for ClassAnswer {
    ghost from_gives = { λ r a. a ≡ class_from r };

    fn from(answer: Result<Class, Refusal>) -> ClassAnswer {
        match answer {
            Ok(Class { step, letter }) => ClassAnswer {
                refusal: 0,
                step,
                letter: letter.into(),
            },
            Err(refusal) => ClassAnswer {
                refusal: refusal.into(),
                step: 0,
                letter: 0,
            },
        }
    }
}

// Mean, deviation and value in kPa.
#[repr(C)]
#[derive(Clone, Copy)]
pub struct StrengthAnswer {
    pub refusal: u32,
    pub mean: u32,
    pub deviation: u32,
    pub value: u32,
}

impl From<Result<Strength, Refusal>> for StrengthAnswer {
    ghost from_gives = { λ r a. a ≡ strength_from r };

    fn from(answer: Result<Strength, Refusal>) -> StrengthAnswer {
        match answer {
            Ok(
                Strength {
                    mean,
                    deviation,
                    value,
                },
            ) => StrengthAnswer {
                refusal: 0,
                mean,
                deviation,
                value,
            },
            Err(refusal) => StrengthAnswer {
                refusal: refusal.into(),
                mean: 0,
                deviation: 0,
                value: 0,
            },
        }
    }
}

#[repr(C)]
#[derive(Clone, Copy)]
pub struct Drawn {
    pub refusal: u32,
    pub point: Point,
}

impl From<Result<Point, Refusal>> for Drawn {
    ghost from_gives = { λ r a. a ≡ drawn_from r };

    fn from(answer: Result<Point, Refusal>) -> Drawn {
        match answer {
            Ok(point) => Drawn { refusal: 0, point },
            Err(refusal) => Drawn {
                refusal: refusal.into(),
                point: Point {
                    strain: 0.0,
                    stress: 0.0,
                },
            },
        }
    }
}

// A force in mN, or a moment in mN half-mm.
#[repr(C)]
#[derive(Clone, Copy)]
pub struct Amount {
    pub refusal: u32,
    pub amount: i64,
}

impl From<Result<i64, Refusal>> for Amount {
    ghost from_gives = { λ r a. a ≡ amount_from r };

    fn from(answer: Result<i64, Refusal>) -> Amount {
        match answer {
            Ok(amount) => Amount { refusal: 0, amount },
            Err(refusal) => Amount {
                refusal: refusal.into(),
                amount: 0,
            },
        }
    }
}

#[repr(C)]
#[derive(Clone, Copy)]
pub struct Listing {
    pub refusal: u32,
    pub count: u32,
    pub work: u32,
}

impl From<Result<depths::Listing, Unlisted>> for Listing {
    ghost from_gives = { λ r a. a ≡ listing_from r };

    fn from(answer: Result<depths::Listing, Unlisted>) -> Listing {
        let (refusal, count, work) = match answer {
            Ok(depths::Listing { count, work }) => (0, count, work),
            Err(Unlisted::Refused(refusal)) => (refusal.into(), 0, 0),
            Err(Unlisted::NoDepth { work }) => (Refusal::NoDepth.into(), 0, work),
            Err(Unlisted::RowShort { count, work }) => (Refusal::RowLength.into(), count, work),
        };
        Listing {
            refusal,
            count,
            work,
        }
    }
}

#[repr(C)]
#[derive(Clone, Copy)]
pub struct FirstDepth {
    pub refusal: u32,
    pub depth: u32,
    pub kind: u32,
    pub work: u32,
    pub moment: i64,
}

impl From<Result<depths::FirstDepth, Unlisted>> for FirstDepth {
    ghost from_gives = { λ r a. a ≡ first_from r };

    fn from(answer: Result<depths::FirstDepth, Unlisted>) -> FirstDepth {
        let (refusal, work) = match answer {
            Ok(first) => {
                return FirstDepth {
                    refusal: 0,
                    depth: first.depth,
                    kind: first.kind.into(),
                    work: first.work,
                    moment: first.moment,
                };
            }
            Err(Unlisted::Refused(refusal)) => (refusal, 0),
            Err(Unlisted::NoDepth { work }) => (Refusal::NoDepth, work),
            Err(Unlisted::RowShort { work, .. }) => (Refusal::RowLength, work),
        };
        FirstDepth {
            refusal: refusal.into(),
            depth: 0,
            kind: 0,
            work,
            moment: 0,
        }
    }
}
