// What `class` answers.
ghost use Rattle.std.specs.Prelude.{◌≡◌};

// Each is its letter in ASCII.
#[derive(Clone, Copy, Debug, PartialEq, Eq)]
pub enum Letter {
    A = b'a' as isize,
    B,
    C,
    D,
    E,
}

impl From<Letter> for u32 {
    ghost use Rattle.class.specs.Class.{ascii};

    ghost from_gives = { λ letter n. n ≡ ascii letter };

    fn from(letter: Letter) -> u32 {
        letter as u32
    }
}

// The step in kPa.
#[derive(Clone, Copy, Debug, PartialEq, Eq)]
pub struct Class {
    pub step: u32,
    pub letter: Letter,
}
