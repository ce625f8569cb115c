// Work on a net. In each contract the clause `lent` says that it is the caller's very column that the net works on, so that a caller knows what
// the column holds when the net is gone. It is a fact of two moments, which no type keeps. Clauses name the three members of a measure that they
// need, since the definitions in `cycle_space`, which they lead to, know no measure.
ghost use Rattle.std.specs.Prelude.{◌≡◌};
ghost use Rattle.net.specs.Calls.{Opened, AddsNode, Lays, Lifts, Reweighs};
ghost use Rattle.net.specs.Promise.{KeepsItsPromise};

use crate::net::Net;
use crate::refusal::Refusal;
use crate::tables::{MOST_NODES, MOST_PIPES, NO_PIPES, NOWHERE, Tables};
use cycle_space::Ends;
use measures::Measure;

impl<'a, M: Measure> Net<'a, M> {
    // A net without nodes, pipes or rings. It is never refused. The clause `stands` is the whole promise: what holds after every run of calls from
    // here (add_node, lay, lift, reweigh and next, accepted or declined), against any rival's basis, under any lawful measure.
    pub fn open(column: &'a mut [M]) -> Net<'a, M>
        ensures opened { Opened column.old result }
        ensures stands { KeepsItsPromise M.Measure.zero M.Measure.join M.Measure.within result }
        ensures lent { result.column.ghost_name ≡ column.entry.ghost_name }
    {
        M::join_keeps_order();
        Net {
            column,
            tables: Tables {
                nodes: 0,
                pipes: 0,
                found: 0,
                ends: [NOWHERE; 256],
                rows: [NO_PIPES; 256],
                supports: [NO_PIPES; 256],
            },
        }
    }

    // One node more; answers its number. Rings found remain.
    pub fn add_node(&mut self) -> Result<usize, Refusal>
        ensures replied { AddsNode self.old result self.new }
        ensures lent { self.new.column.ghost_name ≡ self.old.column.ghost_name }
    {
        let nodes = self.tables.nodes;
        if nodes >= MOST_NODES {
            return Err(Refusal::NodesFull);
        }
        self.tables.nodes = nodes + 1;
        Ok(nodes + 1)
    }

    // One pipe more, with its weight in the next place of the column; answers its number. Rings found are struck.
    pub fn lay(&mut self, first: usize, second: usize, weight: M) -> Result<usize, Refusal>
        ensures replied { Lays self.old first second weight result self.new }
        ensures lent { self.new.column.ghost_name ≡ self.old.column.ghost_name }
    {
        if !self.has_node(first) || !self.has_node(second) {
            return Err(Refusal::NoSuchNode);
        }
        if first == second {
            return Err(Refusal::OneNode);
        }
        let place = self.tables.pipes;
        if place >= MOST_PIPES || place >= self.column.len() {
            return Err(Refusal::PipesFull);
        }
        self.column[place] = weight;
        self.tables.ends[place] = Ends { first, second };
        self.tables.pipes = place + 1;
        self.tables.found = 0; // a lighter ring may go over the new pipe
        Ok(place + 1)
    }

    // The pipe of highest number is taken away, and the column left as it is; answers the pipe's number. Rings found are struck.
    pub fn lift(&mut self) -> Result<usize, Refusal>
        ensures replied { Lifts self.old result self.new }
        ensures lent { self.new.column.ghost_name ≡ self.old.column.ghost_name }
    {
        let pipes = self.tables.pipes;
        if pipes == 0 {
            return Err(Refusal::NoSuchPipe);
        }
        self.tables.pipes = pipes - 1;
        self.tables.found = 0; // a ring may have lost its pipe
        Ok(pipes)
    }

    // Another weight for one pipe. Rings found are struck.
    pub fn reweigh(&mut self, pipe: usize, weight: M) -> Result<(), Refusal>
        ensures replied { Reweighs self.old pipe weight result self.new }
        ensures lent { self.new.column.ghost_name ≡ self.old.column.ghost_name }
    {
        self.column[self.pipe_place(pipe)?] = weight;
        self.tables.found = 0; // a ring may have become too heavy
        Ok(())
    }
}
