//! What is to be done next in a run: callbacks, attempts that wait for a worker, attempts that are over.

ghost use Rattle.std.specs.Prelude.{◌≡◌, [], None, map};
ghost use Rattle.agenda_model.specs.Agendas.{ServesTasks};

use dependency_graph::{Graph, Monitor};
use std::alloc::Global;
use std::collections::VecDeque;
use std::marker::Model;

/// The graph of the tasks of a run, and the queues of those that go on. Contracts see the queues as lists of the
/// tasks' numbers.
#[derive(Drop)]
pub struct Agenda<M: Monitor> {
    pub(crate) graph: Graph<M>,
    // The launched tasks.
    pub(crate) launched: VecDeque<usize>,
    // The tasks whose attempts are over. It has a place for each running attempt.
    pub(crate) over: VecDeque<usize>,
    // How many of the first of these need no storing.
    pub(crate) kept: usize,
    // How many tasks aren't settled.
    pub(crate) unsettled: usize,
}

impl<M: Monitor> Model for Agenda<M> {
    ghost use Rattle.std.specs.Prelude.{◌-◌};
    ghost use Rattle.std.specs.VecDeque.{deque_len, deque_capacity};
    ghost use Rattle.std.specs.Coded.{codes};
    ghost use Rattle.flow_base.specs.contracts.value.Value as value;
    ghost use Rattle.agenda_model.specs.AgendaViews.{AgendaView};

    ghost Value = { AgendaView };

    ghost coded = { Prim.hlevel (codes, value.the_row.coded) };

    ghost view = { λ a. record { graph = a.graph; launched = a.launched.items; over = a.over.items; kept = a.kept; spare = deque_capacity a.over - deque_len a.over; unsettled = a.unsettled } };
}

impl<M: Monitor> Agenda<M> {
    /// The agenda of a run before any turn.
    pub fn new(alloc: Global, monitors: Vec<M>) -> Agenda<M>
        ensures serves { ServesTasks result [] [] None }
        ensures kept { result.kept ≡ 0 }
        ensures told { result.graph.told ≡ map M.told monitors.items }
    {
        let mut graph = Graph::new(alloc);
        graph.add_monitors(monitors);
        Agenda {
            graph,
            launched: VecDeque::new(alloc),
            over: VecDeque::new(alloc),
            kept: 0,
            unsettled: 0,
        }
    }

    /// The monitors.
    pub fn into_monitors(self) -> Vec<M>
        ensures { map M.told result.items ≡ self.graph.told }
    {
        let Agenda { graph, .. } = self;
        graph.into_monitors()
    }
}
