// Theorems, each the contract of a function that does nothing.
ghost use Rattle.std.specs.Prelude.{ℕ};
ghost use Rattle.sources.specs.Counts.{Counts};
ghost use Rattle.curves.specs.Faults.{NoCurveHasAFault};
ghost use Rattle.curves.specs.Theorems.{AgesStand, GapIsBest, GapsAgree, PiecesStand, StepsJoin, StepsTurn, ValuesStand};
ghost use Rattle.curves.specs.declared.shapes.Shape.{Shape};

// Of lawful counts and any shape, the curve that the rules give has no fault: no rival with its turning gap that expects no more failures than were counted
// has a larger product, none of a U-shaped curve, with any turning gap, that expects no more failures than were counted one that is larger by more than the score can tell, its steps are those of the rules,
// and no failures and no exposure are lost.
pub fn no_curve_has_a_fault()
    ensures { NoCurveHasAFault }
{}

// Of lawful counts: the counted ages, their gaps, the turning gap, and for every turning gap that the shape allows its pieces and its steps.
pub fn curves_stand()
    ensures ages { AgesStand }
    ensures gaps { (n f : ℕ → ℕ) (t oldest : ℕ) → GapsAgree n f t oldest }
    ensures turning { GapIsBest }
    ensures pieces { (c : Counts) (shape : Shape) (j : ℕ) → PiecesStand c shape j }
    ensures joins { (c : Counts) (shape : Shape) (j : ℕ) → StepsJoin c shape j }
    ensures turns { (c : Counts) (shape : Shape) (j : ℕ) → StepsTurn c shape j }
    ensures values { (c : Counts) (shape : Shape) (j : ℕ) → ValuesStand c shape j }
{}
