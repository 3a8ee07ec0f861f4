// Numbers by chance, always the same from one start.

/// A source of numbers.
#[derive(Drop)]
pub struct Chance {
    state: u64,
}

impl Chance {
    /// The source with this start.
    pub fn new(start: u64) -> Chance {
        Chance { state: start }
    }

    /// The next number below `count`, or 0.
    pub fn below(&mut self, count: usize) -> usize {
        self.state = self
            .state
            .wrapping_mul(6_364_136_223_846_793_005)
            .wrapping_add(1_442_695_040_888_963_407);
        let number = (self.state >> 33) as usize;
        if count == 0 { 0 } else { number % count }
    }
}
