//! What a rule said when it was asked, and how far that reaches.

/// How far an answer reaches.
#[derive(Clone, Copy)]
pub enum Reach {
    /// To each pod of the class, on all nodes.
    Class,
    /// To each pod of the class on this node's row, whatever is used of it.
    Row,
    /// To each pod of the class on this node's row, as long as so much is used of it.
    Node,
    /// No further.
    Here,
}

/// What a rule said, and how far that reaches.
pub struct Asked<V> {
    pub said: V,
    pub reach: Reach,
}

// After so many calls that were shown more a rule is shown little again, so that it is seen when it
// asks for less.
const CALLS_BETWEEN: u8 = 63;

/// How much a rule asked for lately, and after how many calls it is to be shown as little as can be
/// again.
#[derive(Clone, Copy)]
pub struct Habit {
    reach: Reach,
    wait: u8,
}

impl Reach {
    // The further it reaches, the less this is.
    fn rank(self) -> u8 {
        match self {
            Reach::Class => 0,
            Reach::Row => 1,
            Reach::Node => 2,
            Reach::Here => 3,
        }
    }

    // As far as an answer may reach that isn't to reach this far.
    fn shorter(self) -> Reach {
        match self {
            Reach::Class => Reach::Row,
            Reach::Row => Reach::Node,
            Reach::Node | Reach::Here => Reach::Here,
        }
    }

    /// Whether an answer that reaches this far at most may reach as far as that.
    pub fn allows(self, far: Reach) -> bool {
        self.rank() <= far.rank()
    }
}

impl Habit {
    /// Nothing is known of the rule.
    pub fn new() -> Habit {
        Habit {
            reach: Reach::Class,
            wait: 0,
        }
    }

    /// What the next call may reach at most.
    pub fn next(&mut self) -> Reach {
        if self.wait == 0 {
            return Reach::Class;
        }
        self.wait -= 1;
        self.reach
    }

    /// Notes whether a rule answered that was shown what lets its answer reach this far: where it
    /// asked for more, its answers reach less far.
    pub fn note(&mut self, has_answered: bool, far: Reach) {
        if !has_answered {
            self.reach = far.shorter();
            self.wait = CALLS_BETWEEN;
        }
    }
}
