//! Variables, written outputs and turns.

ghost use Rattle.std.specs.Prelude.{◌≡◌, ◌<◌, Some, OnOk, slice_get, slice_set};
ghost use Rattle.app_eval.specs.Frames.{Changes, IsSet, Turns, Writes, appends, store_of, writes_text};
ghost use Rattle.body_program.specs.Meaning as code;

use crate::indexing::place_in;
use crate::limits::file_fits;
use crate::operators::{Failure, int_of};
use crate::variable::Variable;
use flow_base::{Exception, Text, Value};

/// What a body has while it runs.
#[derive(Drop)]
pub struct Frame {
    /// The variables, by their slots.
    pub slots: Vec<Option<Variable>>,
    /// What it wrote to each output.
    pub written: Vec<Option<Text>>,
    /// How many turns its loops may still make.
    pub left: u32,
}

/// A statement goes on, or returns.
#[derive(Drop)]
pub enum Flow {
    /// On to the next statement.
    Goes,
    /// With this value.
    Returns(Value),
}

impl Frame {
    /// Sets a variable.
    pub fn set(&mut self, slot: usize, value: Value)
        ensures { store_of self.new ≡ code.with_slot slot value (store_of self.old) }
    {
        if slot < self.slots.len() {
            self.slots[slot] = Some(Variable::of(value));
        }
    }

    /// One more turn of a loop, or BudgetError.
    pub fn turn(&mut self) -> Result<(), Exception>
        ensures turns { Turns result (store_of self.new) (code.turn (store_of self.old)) }
        ensures fewer { OnOk result (self.new.left < self.old.left) }
    {
        if self.left == 0 {
            return Err(Exception::BudgetError);
        }
        self.left -= 1;
        Ok(())
    }

    /// TypeError where the variable isn't set.
    pub fn is_set(&self, slot: usize) -> Result<(), Exception>
        ensures { IsSet result (code.held (slice_get self.now.slots.items slot)) }
    {
        match self.slots.get(slot) {
            Some(Some(_)) => Ok(()),
            _ => Err(Exception::TypeError),
        }
    }

    /// The list in a slot gets one more item.
    pub fn append(&mut self, slot: usize, item: Value) -> Result<(), Failure>
        ensures appends { Changes result (store_of self.new) (appends slot item (store_of self.old)) }
        ensures left { OnOk result (self.new.left ≡ self.old.left) }
    {
        if slot >= self.slots.len() {
            return Err(Failure::Raised(Exception::TypeError));
        }
        match &mut self.slots[slot] {
            None => Err(Failure::Raised(Exception::TypeError)),
            Some(held) => held.append(item),
        }
    }

    /// Writes a text to an output, in place of what was written to it before.
    #[tactic(auto, unfolding(flow_meaning::specs::Operators::text_of))]
    pub fn write(&mut self, names: &[Text], output: &Value, content: Value) -> Result<(), Exception>
        ensures writes { Writes result (store_of self.new) (code.writes names.now output.now content (store_of self.old)) }
        ensures left { OnOk result (self.new.left ≡ self.old.left) }
    {
        let output = int_of(output)?;
        match content {
            Value::Text(content) => self.write_text(names, output, content),
            _ => Err(Exception::TypeError),
        }
    }

    #[tactic(auto, using(crate::proofs::Within::name_within))]
    fn write_text(&mut self, names: &[Text], output: i64, content: Text) -> Result<(), Exception>
        ensures writes { Writes result (store_of self.new) (writes_text names.now output content (store_of self.old)) }
        ensures left { OnOk result (self.new.left ≡ self.old.left) }
    {
        let place = place_in(output, names.len())?;
        if !file_fits(&names[place], &content) {
            return Err(Exception::SizeError);
        }
        set_at(&mut self.written, place, content);
        Ok(())
    }
}

/// Sets an output, where there is one at the place.
fn set_at(written: &mut Vec<Option<Text>>, place: usize, content: Text)
    ensures { written.new.items ≡ slice_set written.old.items place (Some content) }
{
    if place < written.len() {
        written[place] = Some(content);
    }
}
