//! A body as a program.

ghost use Rattle.std.specs.Prelude.{◌<◌, ◌^◌, length, IfOk};
ghost use Rattle.flow_meaning.specs.Walk.{names_in};
ghost use Rattle.body_program.specs.Resolved.{AreSlots, Grows, IsProgramOf};

use crate::code::Program;
use crate::expression::Resolver;
use crate::slot_names::SlotNames;
use app_index::Apps;
use flow_base::Text;
use script_tree::tree::Block;
use sqlite_items::Items as ListOf;
use std::alloc::{AllocError, Global};

/// The program of a body of a script of these apps, with these parameters.
pub fn program<'a>(
    alloc: Global,
    apps: &Apps<'a>,
    parameters: &'a [Text],
    body: &'a Block,
) -> Result<Program, AllocError>
    requires { length apps.now < 2 ^ 32 }
    ensures { IfOk result (λ p. IsProgramOf p (names_in apps.now) body.now parameters.now) }
{
    let mut names = SlotNames::new(alloc);
    let parameters = slots(alloc, parameters, &mut names)?;
    let resolver = Resolver { alloc, apps };
    let steps = resolver.block(body, &mut names)?;
    Ok(Program {
        parameters,
        slots: names.len(),
        steps,
    })
}

fn slots<'a>(
    alloc: Global,
    parameters: &'a [Text],
    names: &mut SlotNames<'a>,
) -> Result<ListOf<usize>, AllocError>
    ensures grows { Grows names.old names.new }
    ensures slots { IfOk result (λ slots. AreSlots names.new slots parameters.now) }
{
    let mut slots = ListOf::new(alloc);
    for parameter in parameters {
        slots.push(names.slot(parameter)?)?;
    }
    Ok(slots)
}
