//! What every body asks, as contracts.

ghost use Rattle.body_requests.specs.Laws.{
  BodiesAskTold,
  AppsGivePlain,
  CallsWaitForEarlier,
  WaitsAreTold,
  BodiesAskWell,
  PlainAppsAskNothing,
  BodiesAskWithin,
  AppsGiveWithin,
  GivesOwnCalls,
  TasksAreOrdered,
};

/// Bodies on plain arguments name only futures that they were told of.
pub fn bodies_ask_told()
    ensures { BodiesAskTold }
{}

/// A plain app on plain arguments gives a plain value.
pub fn apps_give_plain()
    ensures { AppsGivePlain }
{}

/// The inputs of a call are earlier calls of the same body.
pub fn calls_wait_for_earlier()
    ensures { CallsWaitForEarlier }
{}

/// What a body waits for is an earlier call of its own.
pub fn waits_are_told()
    ensures { WaitsAreTold }
{}

/// What a body gives names only its own calls.
pub fn gives_own_calls()
    ensures { GivesOwnCalls }
{}

/// Bodies of well-formed scripts ask what their kind may ask, and call apps as declared.
pub fn bodies_ask_well()
    ensures { BodiesAskWell }
{}

/// A plain app of a well-formed script asks for nothing.
pub fn plain_apps_ask_nothing()
    ensures { PlainAppsAskNothing }
{}

/// Bodies on arguments within the limits ask within them.
pub fn bodies_ask_within()
    ensures { BodiesAskWithin }
{}

/// A plain app on arguments within the limits gives a value and files within them.
pub fn apps_give_within()
    ensures { AppsGiveWithin }
{}

/// Each task of the sequential evaluation waits only for tasks before it.
pub fn tasks_are_ordered()
    ensures { TasksAreOrdered }
{}
