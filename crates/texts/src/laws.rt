// What reading a text means.
ghost use Rattle.texts.specs.Laws.{LinesAreSpelled};

// The lines that are read from a text are those that the text spells.
pub fn lines_are_spelled()
    ensures { LinesAreSpelled }
{}
