//! Random numbers, the same in each run.

/// Random numbers.
#[derive(Drop)]
pub struct Seed {
    state: u64,
}

impl Seed {
    /// Those of a number.
    pub fn of(number: u64) -> Seed {
        Seed {
            state: number.wrapping_mul(0x9E37_79B9_7F4A_7C15).wrapping_add(1),
        }
    }

    /// The next number, below a limit.
    pub fn below(&mut self, limit: u64) -> u64 {
        self.state = self
            .state
            .wrapping_mul(6_364_136_223_846_793_005)
            .wrapping_add(1_442_695_040_888_963_407);
        (self.state >> 33) % limit.max(1)
    }

    /// One of these.
    pub fn pick<'a>(&mut self, texts: &[&'a str]) -> &'a str {
        let mut left = self.below(texts.len() as u64);
        for text in texts {
            if left == 0 {
                return *text;
            }
            left -= 1;
        }
        ""
    }
}
