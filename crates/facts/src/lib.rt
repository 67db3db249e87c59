// The worked examples, each a fact that follows from the definitions alone.

#![tactic(auto)]

ghost use Rattle.facts.specs.Examples.{ASecondPickOverlaps, ARepetitionSteps, GAndHAreAccepted, AGoExpands, ANoteDropsItsFirst, GRefuses, AStrokeExpandsByBoth};

// Every worked example comes out as the rules say.
pub fn worked_examples()
    ensures second_pick { ASecondPickOverlaps }
    ensures repetition { ARepetitionSteps }
    ensures lists { GAndHAreAccepted }
    ensures go { AGoExpands }
    ensures note { ANoteDropsItsFirst }
    ensures refused { GRefuses }
    ensures stroke { AStrokeExpandsByBoth }
{}
