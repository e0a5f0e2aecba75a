//! Where a body waits.

ghost use Rattle.std.specs.Prelude.{◌≡◌, None, Some};
ghost use Rattle.app_eval.specs.Interrupts.{Wraps, WrapsResult, at_step, halt_of, in_item, in_otherwise, in_then, in_turn, mapped};

use crate::frame::Flow;
use crate::operators::Stop;
use flow_base::{Exception, Items};
use flow_meaning::Request;
use sqlite_items::Boxed;
use std::alloc::{AllocError, Global};

/// Where a statement waits that has begun: in a statement of one of its blocks, at the beginning of
/// that or inside.
#[derive(Drop)]
pub enum InnerPosition {
    /// The first block of an `if`.
    Then(usize, Option<Boxed<InnerPosition>>),
    /// The other block of an `if`.
    Otherwise(usize, Option<Boxed<InnerPosition>>),
    /// A turn of `while`.
    Iteration(usize, Option<Boxed<InnerPosition>>),
    /// A turn of `for`, with its list and the place of the next item.
    Item(Items, usize, usize, Option<Boxed<InnerPosition>>),
}

/// At the beginning of a statement, or inside.
pub type Inner = Option<Boxed<InnerPosition>>;

/// Where a block waits: in the statement of this number, at its beginning or inside.
#[derive(Drop)]
pub struct Position {
    /// The number of the statement.
    pub step: usize,
    /// Where in it.
    pub inside: Inner,
}

/// Why a part of a body has not ended: as a stop, and where it asks, the place from which it goes on.
#[derive(Drop)]
pub enum Interrupt<P> {
    /// It ended by this exception.
    Raised(Exception),
    /// It asks for this, and goes on from the place.
    Asks(Request, P),
    /// There is no memory.
    NoMemory,
}

impl<P> From<AllocError> for Interrupt<P> {
    ghost use Rattle.std.specs.Prelude.{◌≡◌};
    ghost use Rattle.app_eval.specs.declared.position.Interrupt.TheVariants.{NoMemory};

    ghost from_gives = { λ _ h. h ≡ NoMemory };

    fn from(_: AllocError) -> Interrupt<P> {
        Interrupt::NoMemory
    }
}

impl<P> From<Exception> for Interrupt<P> {
    ghost use Rattle.std.specs.Prelude.{◌≡◌};
    ghost use Rattle.app_eval.specs.declared.position.Interrupt.TheVariants.{Raised};

    ghost from_gives = { λ exception h. h ≡ Raised exception };

    fn from(exception: Exception) -> Interrupt<P> {
        Interrupt::Raised(exception)
    }
}

impl Interrupt<()> {
    /// A stop, where the place isn't known yet.
    pub fn of(stop: Stop) -> Interrupt<()>
        ensures { result ≡ halt_of stop }
    {
        match stop {
            Stop::Raised(exception) => Interrupt::Raised(exception),
            Stop::Asks(request) => Interrupt::Asks(request, ()),
            Stop::NoMemory => Interrupt::NoMemory,
        }
    }

    /// At the beginning of what was run.
    pub fn here<P>(self) -> Interrupt<Option<P>>
        ensures { result ≡ mapped (λ _. None) self }
    {
        match self {
            Interrupt::Raised(exception) => Interrupt::Raised(exception),
            Interrupt::Asks(request, ()) => Interrupt::Asks(request, None),
            Interrupt::NoMemory => Interrupt::NoMemory,
        }
    }
}

impl<P> Interrupt<P> {
    /// At a place inside of what was run.
    pub fn further(self) -> Interrupt<Option<P>>
        ensures { result ≡ mapped Some self }
    {
        match self {
            Interrupt::Raised(exception) => Interrupt::Raised(exception),
            Interrupt::Asks(request, place) => Interrupt::Asks(request, Some(place)),
            Interrupt::NoMemory => Interrupt::NoMemory,
        }
    }
}

impl Interrupt<Inner> {
    /// In the statement of this number.
    pub fn in_step(self, step: usize) -> Interrupt<Position>
        ensures { result ≡ mapped (at_step step) self }
    {
        match self {
            Interrupt::Raised(exception) => Interrupt::Raised(exception),
            Interrupt::Asks(request, inside) => Interrupt::Asks(request, Position { step, inside }),
            Interrupt::NoMemory => Interrupt::NoMemory,
        }
    }
}

fn boxed(alloc: Global, request: Request, inside: InnerPosition) -> Interrupt<Inner>
    ensures { Wraps Some (Interrupt.Asks request inside) result }
{
    match Boxed::new(alloc, inside) {
        Ok(inside) => Interrupt::Asks(request, Some(inside)),
        Err(_) => Interrupt::NoMemory,
    }
}

/// In the first block of an `if`.
pub fn then_in(
    alloc: Global,
    ran: Result<Flow, Interrupt<Position>>,
) -> Result<Flow, Interrupt<Inner>>
    ensures { WrapsResult in_then ran result }
{
    match ran {
        Ok(flow) => Ok(flow),
        Err(Interrupt::Raised(exception)) => Err(Interrupt::Raised(exception)),
        Err(Interrupt::Asks(request, place)) => {
            let Position { step, inside } = place;
            Err(boxed(alloc, request, InnerPosition::Then(step, inside)))
        }
        Err(Interrupt::NoMemory) => Err(Interrupt::NoMemory),
    }
}

/// In the other block of an `if`.
pub fn otherwise_in(
    alloc: Global,
    ran: Result<Flow, Interrupt<Position>>,
) -> Result<Flow, Interrupt<Inner>>
    ensures { WrapsResult in_otherwise ran result }
{
    match ran {
        Ok(flow) => Ok(flow),
        Err(Interrupt::Raised(exception)) => Err(Interrupt::Raised(exception)),
        Err(Interrupt::Asks(request, place)) => {
            let Position { step, inside } = place;
            Err(boxed(alloc, request, InnerPosition::Otherwise(step, inside)))
        }
        Err(Interrupt::NoMemory) => Err(Interrupt::NoMemory),
    }
}

/// In the condition of a `while`, or in a turn of it.
pub fn in_turns(alloc: Global, halt: Interrupt<Option<Position>>) -> Interrupt<Inner>
    ensures { Wraps in_turn halt result }
{
    match halt {
        Interrupt::Raised(exception) => Interrupt::Raised(exception),
        Interrupt::Asks(request, place) => match place {
            None => Interrupt::Asks(request, None),
            Some(place) => {
                let Position { step, inside } = place;
                boxed(alloc, request, InnerPosition::Iteration(step, inside))
            }
        },
        Interrupt::NoMemory => Interrupt::NoMemory,
    }
}

/// In a turn of a `for` with the item before this one.
pub fn in_items(
    alloc: Global,
    items: Items,
    next: usize,
    halt: Interrupt<Position>,
) -> Interrupt<Inner>
    ensures { Wraps (in_item items next) halt result }
{
    match halt {
        Interrupt::Raised(exception) => Interrupt::Raised(exception),
        Interrupt::Asks(request, place) => {
            let Position { step, inside } = place;
            boxed(
                alloc,
                request,
                InnerPosition::Item(items, next, step, inside),
            )
        }
        Interrupt::NoMemory => Interrupt::NoMemory,
    }
}
