// The layers of the planner that can refuse.

#[derive(Clone, Copy, Debug, PartialEq, Eq)]
pub enum Layer {
    File,
    Job,
}
