//! Numbers of an order without pattern, the same from the same start.

/// Where the draws stand.
#[derive(Drop)]
pub(crate) struct Draws {
    state: u64,
}

impl Draws {
    /// Draws of another order for each start.
    pub(crate) fn new(start: u32) -> Draws {
        let mut draws = Draws {
            state: u64::from(start),
        };
        let _first = draws.draw();
        draws
    }

    /// A number below this one; 0 where there is none.
    pub(crate) fn below(&mut self, bound: u32) -> u32 {
        let drawn = self.draw();
        if bound == 0 { 0 } else { drawn % bound }
    }

    /// The place of one of so many things; 0 where there is none.
    pub(crate) fn place(&mut self, count: usize) -> usize {
        let drawn = self.draw() as usize;
        if count == 0 { 0 } else { drawn % count }
    }

    // The steps are those of Knuth's MMIX.
    fn draw(&mut self) -> u32 {
        self.state = self
            .state
            .wrapping_mul(6_364_136_223_846_793_005)
            .wrapping_add(1_442_695_040_888_963_407);
        (self.state >> 33) as u32
    }
}
