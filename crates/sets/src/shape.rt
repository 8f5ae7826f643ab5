// A set's shape: how many channels, how many samples a channel, and the origin, the place of the first sample.
#[derive(Clone, Copy)]
pub struct Shape {
    pub channels: usize,
    pub samples: usize,
    pub origin: usize,
}
