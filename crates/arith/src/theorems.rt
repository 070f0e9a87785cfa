// Theorems, each the contract of a function that does nothing.
ghost use Rattle.std.specs.Prelude.{ℕ, ◌≤◌};
ghost use Rattle.arith.specs.Log.{squarings, LogIsClose, LogValues};
ghost use Rattle.arith.specs.Means.{WeightedMean};
ghost use Rattle.arith.specs.Rivals.{NoRivalIsLikelier};
ghost use Rattle.arith.specs.Scores.{ScoresTellProducts};

// The logarithm is at most the true one and less than 2 below it, for any number of squarings up to 30 and for that of the scores.
pub fn log_is_close()
    ensures any { (K : ℕ) → K ≤ 30 → LogIsClose K }
    ensures scores { LogIsClose squarings }
    ensures values { LogValues }
{}

// A weighted geometric mean is at most the arithmetic one.
pub fn weighted_mean()
    ensures { WeightedMean }
{}

// No rival of a falling or rising fit that expects no more failures than were counted has a larger product.
pub fn no_rival_is_likelier()
    ensures { NoRivalIsLikelier }
{}

// A fit whose score is no greater has no larger product, up to a factor of 2 for each failure at the power 2^(K - 2).
pub fn scores_tell_products()
    ensures any { (K : ℕ) → 2 ≤ K → K ≤ 30 → ScoresTellProducts K }
    ensures scores { ScoresTellProducts squarings }
{}
