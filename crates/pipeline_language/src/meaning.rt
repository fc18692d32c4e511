//! Each file has one reading.

ghost use Rattle.std.specs.Prelude.{◌⊎◌, ℕ, List};
ghost use Rattle.pipeline_language.specs.Language.{AtMostOne, HasFault, HasMeaning, IsFaulty, Means};

/// Each file means something or has a fault, and not both; neither two things, nor two faults.
pub fn one_reading()
    ensures some { (file : List ℕ) → HasMeaning file ⊎ IsFaulty file }
    ensures apart { (file : List ℕ) → HasMeaning file → IsFaulty file → ⊥ }
    ensures one_meaning { (file : List ℕ) → AtMostOne (Means file) }
    ensures one_fault { (file : List ℕ) → AtMostOne (HasFault file) }
{}
