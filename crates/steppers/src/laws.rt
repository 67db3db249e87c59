// The step tables of the two core languages, row by row, as laws of their definitions.
ghost use Rattle.steppers.specs.LogicRows.{LogicRows};
ghost use Rattle.steppers.specs.SequenceRows.{SequenceRows};

// Each row of the logic language's step table.
pub fn logic_steps_by_its_table()
    ensures { LogicRows }
{}

// Each row of the sequence language's step table.
pub fn sequence_steps_by_its_table()
    ensures { SequenceRows }
{}
