ghost use Rattle.std.specs.Prelude.{◌≡◌, length, take};
ghost use Rattle.cycle_space.specs.Shapes.{Parts, Due, Closing, Exactly};
ghost use Rattle.cycle_space.specs.Moments.{shape, weights as weights_of};
ghost use Rattle.net.specs.Views.{view, rings};
ghost use Rattle.net.specs.Calls.{TellsEnds, TellsWeight};

use crate::net::Net;
use crate::refusal::Refusal;
use cycle_space::Ends;
use measures::Measure;

impl<M: Measure> Net<'_, M> {
    // How many nodes there are.
    pub fn nodes(&self) -> usize
        ensures { result ≡ (view self.now).nodes }
    {
        self.tables.nodes
    }

    // How many pipes are laid.
    pub fn pipes(&self) -> usize
        ensures { result ≡ length (view self.now).pipes }
    {
        self.tables.pipes
    }

    // How many parts (connected components) there are.
    pub fn parts(&self) -> usize
        ensures { Parts (shape (view self.now)) result }
    {
        self.labels().parts(self.nodes())
    }

    // How many rings are due (the cycle rank).
    pub fn due(&self) -> usize
        ensures formula { Due (shape (view self.now)) result }
        ensures closing { Exactly (Closing (shape (view self.now))) (shape (view self.now)).pipes result }
    {
        self.pipes() + self.parts() - self.nodes()
    }

    // How many rings are found.
    pub fn found(&self) -> usize
        ensures { result ≡ length (rings self.now) }
    {
        self.tables.found
    }

    // The ends of the pipes laid, in their order.
    pub(crate) fn laid(&self) -> &[Ends]
        ensures { result.now ≡ take self.now.tables.pipes self.now.tables.ends }
    {
        &self.tables.ends[..self.tables.pipes]
    }

    // The weights of the pipes laid, in their order.
    pub(crate) fn weights(&self) -> &[M]
        ensures { result.now ≡ weights_of (view self.now) }
    {
        &self.column[..self.tables.pipes]
    }

    // The ends of a pipe.
    pub fn ends(&self, pipe: usize) -> Result<Ends, Refusal>
        ensures { TellsEnds self.now pipe result }
    {
        Ok(self.tables.ends[self.pipe_place(pipe)?])
    }

    // The weight of a pipe.
    pub fn weight(&self, pipe: usize) -> Result<M, Refusal>
        ensures { TellsWeight self.now pipe result }
    {
        Ok(self.weights()[self.pipe_place(pipe)?])
    }
}
