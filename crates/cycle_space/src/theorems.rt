// Theorems on rows and shapes, as the contracts of functions that have nothing else to do.
ghost use Rattle.cycle_space.specs.Rows.{KnownByPipes, SumLaws, ParityLaws};
ghost use Rattle.cycle_space.specs.Shapes.{PartLaws, PartsAreCounted, DueIsClosing};
ghost use Rattle.cycle_space.specs.Labels.{LabelsTellParts};
ghost use Rattle.cycle_space.specs.Moments.{MomentLaws};
ghost use Rattle.cycle_space.specs.Supports.{AloneHolds, ClosingPipesTell, BasesExist, BasesHaveDueSize};

// Two rows with the same pipes are equal.
pub fn rows_are_known_by_their_pipes()
    ensures { KnownByPipes }
{}

// The sum of rows: by its pipes, commutative, associative, its own inverse, with the empty row as its unit.
pub fn sum_keeps_its_laws()
    ensures { SumLaws }
{}

// The parity of rows: symmetric and linear.
pub fn parity_keeps_its_laws()
    ensures { ParityLaws }
{}

// To be in one part is reflexive, symmetric and transitive.
pub fn part_is_an_equivalence()
    ensures { PartLaws }
{}

// Every shape has a number of parts, and only one.
pub fn parts_are_counted()
    ensures { PartsAreCounted }
{}

// Pipes - nodes + parts is the number of pipes whose ends are joined by lower ones.
pub fn due_is_the_number_of_closing_pipes()
    ensures { DueIsClosing }
{}

// Labels are equal exactly where a run joins the nodes, and a label is the lowest node of its part.
pub fn labels_tell_parts()
    ensures { LabelsTellParts }
{}

// A lift undoes a lay; a reweighing alters one weight and no end.
pub fn nets_keep_their_laws<M>()
    ensures { MomentLaws M }
{}

// The support that a ring has before the first is found holds its own closing pipe and no other pipe.
pub fn supports_begin_with_closing_pipes()
    ensures { AloneHolds }
{}

// A closed set without closing pipes is empty.
pub fn closing_pipes_tell_closed_sets()
    ensures { ClosingPipesTell }
{}

// Every shape has a basis.
pub fn bases_exist()
    ensures { BasesExist }
{}

// Every basis has as many members as the due number says.
pub fn bases_have_due_size()
    ensures { BasesHaveDueSize }
{}
