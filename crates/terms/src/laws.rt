// The laws of terms that no single call shows.
ghost use Rattle.terms.specs.Laws.{ReadingUndoesWriting, WritingUndoesReading, OneTermARun, MarksComeOff, ChildrenAreFound};

// Trees and runs of words stand for each other: to write and then read, or to read and then write, gives back the same.
pub fn reading_and_writing_agree()
    ensures reading { ReadingUndoesWriting }
    ensures writing { WritingUndoesReading }
    ensures one { OneTermARun }
{}

// What taking the marks off a term leaves.
pub fn marks_come_off()
    ensures { MarksComeOff }
{}

// The argument finder finds each child of a term, and no other, whatever stands behind the term.
pub fn children_are_found()
    ensures { ChildrenAreFound }
{}
