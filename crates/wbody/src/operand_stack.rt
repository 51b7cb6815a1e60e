//! The operands of a body as far as they are known, where its typing stands.

ghost use Rattle.std.specs.Prelude.{false, true, ◌≡◌, ◌≤◌, ◌<◌, ◌+◌, [], ◌∷◌, ◌++◌, Some, OnOk, vec_len, length, reverse, take, drop, max};
ghost use Rattle.wbody.specs.Context.{at_most_one, results_of};
ghost use Rattle.wbody.specs.inside.Pass.{may_be, fits, closed, common, fresh, unreached};

use crate::stop::Stop;
use std::alloc::Global;
use wcode::{BlockType, ValueType};

// The operands' types, the last one on top, none where one may be of any type. Those from the floor
// on are the innermost block's; where it isn't reached, there are as many others under these as one
// likes.
#[derive(Drop)]
pub struct OperandStack {
    items: Vec<Option<ValueType>>,
    floor: usize,
    reached: bool,
    greatest: usize,
    ghost in_range: { floor ≤ vec_len items },
    ghost enough: { vec_len items ≤ greatest },
}

// An operand may be of this type.
fn may_be_of(t: ValueType, operand: Option<ValueType>) -> bool
    ensures { result ≡ may_be t operand }
{
    match operand {
        None => true,
        Some(other) => t == other,
    }
}

// What is known of an operand that is both, if there can be one.
fn common_of(first: Option<ValueType>, second: Option<ValueType>) -> Option<Option<ValueType>>
    ensures { result ≡ common first second }
{
    match (first, second) {
        (None, other) => Some(other),
        (Some(t), None) => Some(Some(t)),
        (Some(t), Some(other)) => { if t == other { Some(Some(t)) } else { None } }
    }
}

impl OperandStack {
    ghost use Rattle.wbody.specs.inside.OperandStack.{stack_of, below_of, SameBlock, TakesTop, Takes, Gives};

    // The height at which the innermost block began.
    pub fn floor(&self) -> usize
        ensures { result ≡ self.now.floor }
    {
        self.floor
    }

    // How many there are, also those of the blocks around.
    pub fn height(&self) -> usize
        ensures { result ≡ vec_len self.now.items }
    {
        self.items.len()
    }

    // Whether the place is reached.
    pub fn is_reached(&self) -> bool
        ensures { result ≡ self.now.reached }
    {
        self.reached
    }

    // The greatest number of operands so far.
    pub fn greatest(&self) -> usize
        ensures { result ≡ self.now.greatest }
    {
        self.greatest
    }

    // None, where the body begins.
    pub fn new(alloc: Global) -> Self
        ensures stack { stack_of result ≡ fresh }
        ensures floor { result.floor ≡ 0 }
        ensures greatest { result.greatest ≡ 0 }
    {
        OperandStack {
            items: Vec::new(alloc),
            floor: 0,
            reached: true,
            greatest: 0,
        }
    }

    // Takes off the topmost operand, whatever its type, if there can be one.
    pub fn take_any(&mut self) -> Option<Option<ValueType>>
        ensures { TakesTop result self.old self.new }
    {
        if self.items.len() > self.floor {
            self.items.pop()
        } else if self.reached {
            None
        } else {
            Some(None)
        }
    }

    // Takes off the topmost operand, if it can be of this type.
    pub fn take(&mut self, wanted: ValueType) -> bool
        ensures { Takes (wanted ∷ []) result self.old self.new }
    {
        match self.take_any() {
            Some(operand) => may_be_of(wanted, operand),
            None => false,
        }
    }

    // There can be any operands, and there are none that are known.
    fn has_any(&self) -> bool
        ensures { result ≡ true → stack_of self.now ≡ unreached }
    {
        !self.reached && self.items.len() == self.floor
    }

    // Takes off operands of these types, the last one topmost, if they can be there.
    pub fn take_all(&mut self, types: &[ValueType]) -> bool
        ensures { Takes (reverse types.now) result self.old self.new }
    {
        let mut left = types.len();
        'types: while left > 0 {
            // Each step takes an operand off, so that all of them in a body are no more than its
            // operands.
            if self.has_any() {
                return true;
            }
            left -= 1;
            if !self.take(types[left]) {
                return false;
            }
        }
        true
    }

    // Takes off an operand of the first type, and below it one of the second, if they can be there.
    fn take_pair(&mut self, above: ValueType, below: ValueType) -> bool
        ensures { Takes (above ∷ below ∷ []) result self.old self.new }
    {
        self.take(above) && self.take(below)
    }

    // Takes off such an operand, where one is wanted, if it can be there.
    fn take_at_most_one(&mut self, wanted: Option<ValueType>) -> bool
        ensures { Takes (at_most_one wanted) result self.old self.new }
    {
        match wanted {
            None => true,
            Some(t) => self.take(t),
        }
    }

    // What comes isn't reached.
    pub fn cut(&mut self)
        ensures stack { stack_of self.new ≡ unreached }
        ensures same { SameBlock self.old self.new }
        ensures greatest { self.new.greatest ≡ self.old.greatest }
    {
        self.items.truncate(self.floor);
        self.reached = false;
    }

    // At the start of a block inside the innermost one.
    pub fn open(&mut self)
        ensures stack { stack_of self.new ≡ fresh }
        ensures floor { self.new.floor ≡ vec_len self.old.items }
        ensures items { self.new.items ≡ self.old.items }
        ensures greatest { self.new.greatest ≡ self.old.greatest }
    {
        self.floor = self.items.len();
        self.reached = true;
    }

    // There can be just the results of a block of this type.
    pub fn has_results(&self, block_type: BlockType) -> bool
        ensures { result ≡ fits (stack_of self.now) (results_of block_type) }
    {
        let count = self.items.len() - self.floor;
        match block_type {
            BlockType::Empty => count == 0,
            BlockType::Result(t) => {
                if count == 0 {
                    !self.reached
                } else {
                    count == 1 && may_be_of(t, self.items[self.floor])
                }
            }
        }
    }

    // At the start of the second arm of an `if`.
    pub fn restart(&mut self)
        ensures stack { stack_of self.new ≡ fresh }
        ensures same { SameBlock self.old self.new }
        ensures len { length self.new.items.items ≡ self.new.floor }
        ensures greatest { self.new.greatest ≡ self.old.greatest }
    {
        self.items.truncate(self.floor);
        self.reached = true;
    }

    // Behind a block of this type, to the block that began at this height: there are just the
    // results.
    pub fn close(&mut self, block_type: BlockType, floor: usize, reached: bool) -> Result<(), Stop>
        requires { floor ≤ self.old.floor }
        ensures ok { OnOk result (closed block_type (record {
          operands = reverse (drop floor (below_of self.old));
          reached = reached;
        })
            (stack_of self.old) ≡ Some (stack_of self.new)) }
        ensures err { result ≡ Err Stop.Untyped → fits (stack_of self.old) (results_of block_type) ≡ false }
        ensures floor { OnOk result (self.new.floor ≡ floor) }
        ensures below { OnOk result (below_of self.new ≡ take floor (below_of self.old)) }
        ensures greatest { OnOk result (self.new.greatest ≡ max self.old.greatest (vec_len self.new.items)) }
    {
        if !self.has_results(block_type) {
            return Err(Stop::Untyped);
        }
        self.items.truncate(self.floor);
        self.floor = floor;
        self.reached = reached;
        match block_type {
            BlockType::Empty => Ok(()),
            BlockType::Result(t) => self.give(Some(t)),
        }
    }

    // Puts an operand on top.
    fn give(&mut self, operand: Option<ValueType>) -> Result<(), Stop>
        ensures { Gives operand result self.old self.new }
    {
        if self.items.push(operand).is_err() {
            return Err(Stop::NoMemory);
        }
        self.greatest = self.greatest.max(self.items.len());
        Ok(())
    }
}

// What the most common instructions do.
impl OperandStack {
    ghost use Rattle.wbody.specs.Typing.{takes_gives, drops};
    ghost use Rattle.wbody.specs.inside.OperandStack.{Changes};

    // Takes one operand of this type, and gives one of that.
    #[inline(always)]
    pub fn change_one(&mut self, t: ValueType, gives: ValueType) -> Result<(), Stop>
        ensures { Changes (takes_gives (t ∷ []) (gives ∷ [])) result self.old self.new }
    {
        if !self.take(t) {
            return Err(Stop::Untyped);
        }
        self.give(Some(gives))
    }

    // Takes two operands of this type, and gives one of that.
    #[inline(always)]
    pub fn change_two(&mut self, t: ValueType, gives: ValueType) -> Result<(), Stop>
        ensures { Changes (takes_gives (t ∷ t ∷ []) (gives ∷ [])) result self.old self.new }
    {
        if !self.take_pair(t, t) {
            return Err(Stop::Untyped);
        }
        self.give(Some(gives))
    }

    // Takes one operand of this type.
    #[inline(always)]
    pub fn take_one(&mut self, t: ValueType) -> Result<(), Stop>
        ensures { Changes (takes_gives (t ∷ []) []) result self.old self.new }
    {
        if self.take(t) {
            Ok(())
        } else {
            Err(Stop::Untyped)
        }
    }

    // Takes an operand of the first type, and below it one of the second.
    #[inline(always)]
    pub fn take_two(&mut self, above: ValueType, below: ValueType) -> Result<(), Stop>
        ensures { Changes (takes_gives (above ∷ below ∷ []) []) result self.old self.new }
    {
        if self.take_pair(above, below) {
            Ok(())
        } else {
            Err(Stop::Untyped)
        }
    }

    // Gives an operand of this type.
    #[inline(always)]
    pub fn put(&mut self, t: ValueType) -> Result<(), Stop>
        ensures { Changes (takes_gives [] (t ∷ [])) result self.old self.new }
    {
        self.give(Some(t))
    }

    // Takes one operand of any type.
    #[inline(always)]
    pub fn drop_one(&mut self) -> Result<(), Stop>
        ensures { Changes drops result self.old self.new }
    {
        match self.take_any() {
            Some(_) => Ok(()),
            None => Err(Stop::Untyped),
        }
    }
}

// What an instruction does to the operands.
#[derive(Clone, Copy)]
pub enum Effect<'a> {
    // Takes what is above and below it these types, the last one topmost; gives what it gives.
    Moves {
        above: Option<ValueType>,
        types: &'a [ValueType],
        gives: Option<ValueType>,
    },
    Drops,
    Selects,
    // Takes these, the last one topmost. Nothing behind it is reached.
    Ends {
        types: &'a [ValueType],
    },
    Untyped,
}

impl OperandStack {
    ghost use Rattle.wbody.specs.Typing.{takes_gives, selects, ends};
    ghost use Rattle.wbody.specs.inside.Effect.{effect_type};
    ghost use Rattle.wbody.specs.inside.OperandStack.{Changes};

    // Behind an instruction that does this.
    pub fn apply(&mut self, effect: Effect<'_>) -> Result<(), Stop>
        ensures { Changes (effect_type effect.entry) result self.old self.new }
    {
        match effect {
            Effect::Moves {
                above,
                types,
                gives,
            } => self.change(above, types, gives),
            Effect::Drops => self.drop_one(),
            Effect::Selects => self.select(),
            Effect::Ends { types } => self.end(types),
            Effect::Untyped => Err(Stop::Untyped),
        }
    }

    // Takes what is above and below it these types, the last one topmost; gives what it gives.
    fn change(
        &mut self,
        above: Option<ValueType>,
        types: &[ValueType],
        gives: Option<ValueType>,
    ) -> Result<(), Stop>
        ensures { Changes (takes_gives (at_most_one above ++ reverse types.now) (at_most_one gives)) result self.old
            self.new }
    {
        if !self.take_at_most_one(above) {
            return Err(Stop::Untyped);
        }
        if !self.take_all(types) {
            return Err(Stop::Untyped);
        }
        match gives {
            None => Ok(()),
            Some(t) => self.give(Some(t)),
        }
    }

    // Takes an operand that selects, and below it two of one type, and gives back one of these.
    fn select(&mut self) -> Result<(), Stop>
        ensures { Changes selects result self.old self.new }
    {
        if !self.take(ValueType::I32) {
            return Err(Stop::Untyped);
        }
        let Some(first) = self.take_any() else {
            return Err(Stop::Untyped);
        };
        let Some(second) = self.take_any() else {
            return Err(Stop::Untyped);
        };
        let Some(both) = common_of(first, second) else {
            return Err(Stop::Untyped);
        };
        self.give(both)
    }

    // Takes these, the last one topmost. Nothing behind it is reached.
    fn end(&mut self, types: &[ValueType]) -> Result<(), Stop>
        ensures { Changes (ends (reverse types.now)) result self.old self.new }
    {
        if !self.take_all(types) {
            return Err(Stop::Untyped);
        }
        self.cut();
        Ok(())
    }
}
