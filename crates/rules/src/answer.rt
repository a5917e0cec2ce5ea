// What a rule answers of one step.

// A figure, or none where the step is forbidden.
#[derive(Clone, Copy, Debug, PartialEq, Eq)]
pub struct Answer {
    pub figure: Option<u16>,
}
