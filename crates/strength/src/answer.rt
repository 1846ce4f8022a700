// What `strength` answers, in kPa.
#[derive(Clone, Copy, Debug, PartialEq, Eq)]
pub struct Strength {
    pub mean: u32,
    pub deviation: u32,
    pub value: u32,
}
