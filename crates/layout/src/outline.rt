// How far a book's set-up has come: the counts that turns and limits go by.

// All counts are 0 before any set-up, by which turns are told.
#[derive(Clone, Copy, Default)]
pub struct Outline {
    pub substances: u8,
    pub materials: u8,
    pub stages: u8,
    pub described: u8,
}

impl Outline {
    ghost use Rattle.std.specs.Prelude.{◌≡◌};
    ghost use Rattle.layout.specs.Outline.{may_set_up, may_describe, may_post};

    pub fn may_set_up(self) -> bool
        ensures { result ≡ may_set_up self }
    {
        self.substances == 0
    }

    pub fn may_describe(self, stage: u8) -> bool
        ensures { result ≡ may_describe self stage }
    {
        self.described < self.stages && stage == self.described
    }

    pub fn may_post(self) -> bool
        ensures { result ≡ may_post self }
    {
        self.substances != 0 && self.described == self.stages
    }
}
