use crate::long_lines::LongLines;
use stages::stage::{Parity, Step};

// One step of a lifting that is carried out: the lines, the parity that the step changes, and the step.
#[derive(Clone, Copy)]
pub(crate) struct Turn {
    pub(crate) on_lines: LongLines,
    pub(crate) parity: Parity,
    pub(crate) step: Step,
}
