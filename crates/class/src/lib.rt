// The class of a fibre concrete from its residual strengths fR1 and fR3 (document 01, 'Class').
#![tactic(auto)]

ghost use Rattle.std.specs.Prelude.{◌≡◌, ◌≤◌, ◌<◌, ◌*◌, MatchOption};
ghost use Rattle.refusal.specs.Refusal.{Answers};
ghost use Rattle.class.specs.Class.{step_of, letter_by, class_refusal, class_of};

mod answer;

pub use answer::{Class, Letter};
use refusal::Refusal;

// Table 2 of document 001, in kPa.
const LADDER: [u32; 12] = [
    1000, 1500, 2000, 2500, 3000, 3500, 4000, 4500, 5000, 6000, 7000, 8000,
];

// The largest step that is at most fR1: the steps rise, so it is the last of these. By `filter` and `max` a class takes
// two thirds longer.
fn step_of(fr1: u32) -> Option<u32>
    ensures { MatchOption result (fr1 < 1000) (λ step. (step ≡ step_of fr1) × (1000 ≤ step) × (step ≤ fr1)) }
{
    LADDER.iter().fold(
        None,
        |below, step| if *step <= fr1 { Some(*step) } else { below },
    )
}

// By fR3 over the step.
fn letter_of(step: u32, fr3: u32) -> Letter
    requires { (step < 65536) × (fr3 < 65536) }
    ensures { result ≡ letter_by step fr3 }
{
    let tenths = 10 * fr3;
    if 13 * step <= tenths {
        Letter::E
    } else if 11 * step <= tenths {
        Letter::D
    } else if 9 * step <= tenths {
        Letter::C
    } else if 7 * step <= tenths {
        Letter::B
    } else {
        Letter::A
    }
}

// The step and the letter of a fibre concrete; or 17.
#[tactic(auto, unfolding(crate::specs::Class::class_refusal, crate::specs::Class::class_of))]
pub fn class(fr1: u16, fr3: u16) -> Result<Class, Refusal>
    ensures { Answers (class_refusal fr1 fr3) (class_of fr1 fr3) result }
{
    let fr1 = u32::from(fr1);
    let fr3 = u32::from(fr3);
    match step_of(fr1) {
        Some(step) if step <= 2 * fr3 => Ok(Class {
            step,
            letter: letter_of(step, fr3),
        }),
        _ => Err(Refusal::Class),
    }
}
