/// Numbers from a seed, each of 31 bits.
#[derive(Clone, Copy)]
pub struct Random {
    pub state: u64,
}

impl Random {
    fn next(&mut self) -> u32 {
        self.state = self
            .state
            .wrapping_mul(6_364_136_223_846_793_005)
            .wrapping_add(1_442_695_040_888_963_407);
        (self.state >> 33) as u32
    }

    /// A number below `most`, or 0.
    pub fn below(&mut self, most: u32) -> u32 {
        self.next().checked_rem(most).unwrap_or(0)
    }

    /// One of some texts.
    pub fn one_of(&mut self, texts: &[&'static str]) -> &'static str {
        let most = u32::try_from(texts.len()).unwrap_or(u32::MAX);
        match texts.get(self.below(most) as usize) {
            Some(text) => *text,
            None => "",
        }
    }
}
