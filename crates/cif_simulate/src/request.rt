//! The request of `simulate`.

ghost use Rattle.std.specs.Prelude.{◌≤◌};

/// A number of steps that `--first` gives.
#[derive(Drop)]
pub struct FirstSteps {
    pub count: u32,
    ghost few: { count ≤ 1000000 },
}

/// The run of `simulate`: that of a script's file, or at most so many steps of the first event with one.
#[derive(Drop)]
pub enum Which<'a> {
    Script(&'a str),
    First(FirstSteps),
}

/// The request of `simulate`.
#[derive(Drop)]
pub struct Simulate<'a> {
    pub file: &'a str,
    pub which: Which<'a>,
}
