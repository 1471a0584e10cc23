ghost use Rattle.std.specs.Prelude.{◌≡◌, nat_le};
ghost use Rattle.frame_memo.specs.Worth.{fresh, asked, left};

/// Start places in a row, after which a table that answers too little is closed.
const PATIENCE: u32 = 16;

/// One question in so many is to be answered.
const SHARE: u64 = 16;

/// How often a table answered what it was asked.
#[derive(Clone, Copy, Debug, PartialEq, Eq)]
pub struct Worth {
    /// The questions since the last start place was left.
    pub asked: u64,
    /// Those of them that were answered.
    pub answered: u64,
    /// The start places in a row at which less than one question in 16 was answered, 16 at most.
    pub poor: u32,
}

impl Worth {
    /// Nothing was asked.
    pub fn fresh() -> Worth
        ensures { result ≡ fresh }
    {
        Worth {
            asked: 0,
            answered: 0,
            poor: 0,
        }
    }

    /// Counts a question.
    pub fn ask(&mut self, is_answered: bool)
        ensures { self.new ≡ asked is_answered self.old }
    {
        self.asked = self.asked.saturating_add(1);
        if is_answered {
            self.answered = self.answered.saturating_add(1);
        }
    }

    /// Goes on to the next start place. One without a question counts neither way.
    pub fn leave(&mut self)
        ensures { self.new ≡ left self.old }
    {
        if self.asked == 0 {
            return;
        }
        self.poor = if self.answered < self.asked / SHARE {
            self.poor.min(PATIENCE - 1) + 1
        } else {
            0
        };
        self.asked = 0;
        self.answered = 0;
    }

    /// Whether a table isn't worth its questions.
    pub fn is_poor(&self) -> bool
        ensures { result ≡ nat_le 16 self.now.poor }
    {
        self.poor >= PATIENCE
    }
}
