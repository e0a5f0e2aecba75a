//! The built-ins that cut and join texts.

ghost use Rattle.std.specs.Prelude.{◌∷◌, [], ◌≡◌, ◌<◌, ◌^◌, ◌++◌, length, map, nat_eq, All, IfOk};
ghost use Rattle.std.specs.List.{slice_split};
ghost use Rattle.app_eval.specs.Gives.{Gives, Permits};
ghost use Rattle.app_eval.specs.Joins.{behind, joined_bytes};
ghost use Rattle.flow_base.specs.TextBytes.{IsTextByte};
ghost use Rattle.flow_meaning.specs.Meaning as m;
ghost use Rattle.flow_meaning.specs.Operators as meaning;

use crate::limits::units_fit;
use crate::operators::{Failure, are_texts, texts_of};
use flow_base::{Exception, Items, Text, Value};
use script_tree::tree::BuiltIn;
use sqlite_items::Items as ListOf;
use std::alloc::{AllocError, Global};

/// The pieces of a text between the bytes of a separator.
#[tactic(auto, unfolding(flow_meaning::specs::Operators::text_of))]
pub fn split(alloc: Global, text: &Value, by: &Value) -> Result<Value, Failure>
    ensures { Gives result (m.applied_to BuiltIn.Split (text.now ∷ by.now ∷ [])) }
{
    match text {
        Value::Text(text) => match by {
            Value::Text(by) => split_at(alloc, text.as_slice(), by.as_slice()),
            _ => Err(Failure::Raised(Exception::TypeError)),
        },
        _ => Err(Failure::Raised(Exception::TypeError)),
    }
}

#[tactic(auto, using(crate::proofs::Splits::limit_rules))]
fn split_at(alloc: Global, text: &[u8], by: &[u8]) -> Result<Value, Failure>
    requires { All IsTextByte text.now }
    ensures { Gives result (meaning.split_at text.now by.now) }
{
    match by {
        // The pieces and the separators between them have the text's bytes, and a piece is one more unit.
        [separator] => {
            if !units_fit((text.len() as u64).saturating_add(1)) {
                return Err(Failure::Raised(Exception::SizeError));
            }
            Ok(Value::List(pieces(alloc, text, *separator)?))
        }
        _ => Err(Failure::Raised(Exception::ValueError)),
    }
}

#[tactic(auto, using(crate::proofs::Splits::split_rules))]
fn pieces(alloc: Global, text: &[u8], separator: u8) -> Result<Items, AllocError>
    requires { All IsTextByte text.now }
    ensures { IfOk result (λ pieces. pieces ≡ map Value.Text (slice_split (λ c. nat_eq c separator) text.now)) }
{
    let mut pieces = ListOf::new(alloc);
    let mut piece = Text::new(alloc);
    for byte in text {
        if *byte == separator {
            pieces.push(Value::Text(piece))?;
            piece = Text::new(alloc);
        } else {
            piece.push(*byte)?;
        }
    }
    pieces.push(Value::Text(piece))?;
    Ok(pieces)
}

/// The texts of a list with a separator between them.
#[tactic(auto, unfolding(flow_meaning::specs::Operators::list_of, flow_meaning::specs::Operators::text_of), using(crate::proofs::Fitting::given_rules))]
pub fn concat(alloc: Global, list: &Value, by: &Value) -> Result<Value, Failure>
    ensures { Gives result (m.applied_to BuiltIn.Concat (list.now ∷ by.now ∷ [])) }
{
    can_concat(list, by)?;
    match list {
        Value::List(items) => {
            let texts = texts_of(alloc, items.as_slice())?;
            match by {
                Value::Text(by) => Ok(Value::Text(joined(alloc, by, texts.as_slice())?)),
                _ => Err(Failure::Raised(Exception::TypeError)),
            }
        }
        _ => Err(Failure::Raised(Exception::TypeError)),
    }
}

/// TypeError where they aren't texts, SizeError where they are past the limits together.
#[tactic(auto, unfolding(flow_meaning::specs::Operators::list_of, flow_meaning::specs::Operators::text_of), using(crate::proofs::Concats::concat_rules))]
fn can_concat(list: &Value, by: &Value) -> Result<(), Exception>
    ensures { Permits result (m.applied_to BuiltIn.Concat (list.now ∷ by.now ∷ [])) }
{
    match list {
        Value::List(items) => {
            are_texts(items.as_slice())?;
            match by {
                Value::Text(by) => {
                    if units_fit(joined_units(list, items.as_slice(), by)) {
                        Ok(())
                    } else {
                        Err(Exception::SizeError)
                    }
                }
                _ => Err(Exception::TypeError),
            }
        }
        _ => Err(Exception::TypeError),
    }
}

/// The bytes of the texts of a list with a separator between them: of its units each text has one
/// more than it has bytes, and the list has one.
fn joined_units(list: &Value, texts: &[Value], by: &Text) -> u64
    ensures bytes { result ≡ joined_bytes list.now (length texts.now) (length by.now) }
    ensures count { length texts.now < 2 ^ 63 }
{
    let count = texts.len() as u64;
    let between = count.saturating_sub(1).saturating_mul(by.len() as u64);
    list.size()
        .saturating_sub(1 + count)
        .saturating_add(between)
}

fn joined(alloc: Global, by: &Text, texts: &[Text]) -> Result<Text, AllocError>
    ensures { IfOk result (λ text. text ≡ meaning.joined by.now texts.now) }
{
    match texts {
        [] => Ok(Text::new(alloc)),
        [first, others @ ..] => joined_to(alloc, first, by, others),
    }
}

#[tactic(auto, using(crate::proofs::Joins::join_rules))]
fn joined_to(alloc: Global, first: &Text, by: &Text, others: &[Text]) -> Result<Text, AllocError>
    ensures { IfOk result (λ text. text ≡ first.now ++ behind by.now others.now) }
{
    let mut text = first.copy(alloc)?;
    for other in others {
        text.append(by)?;
        text.append(other)?;
    }
    Ok(text)
}
