//! Laws of the definitions. There is nothing to run in them.
ghost use Rattle.std.specs.Prelude.{◌≡◌, ◌≤◌, ℕ, List, length, Some};
ghost use Rattle.wc_eval.specs.Verdicts.{Oracle};
ghost use Rattle.wc_eval.specs.Names.{Facts};
ghost use Rattle.wc_eval.specs.Progress.{Progress, SumsFit};
ghost use Rattle.wc_eval.specs.Meaning.{form_at, text_value};

/// The value of a text is of 65,536 bytes at most.
pub fn values_stay_short()
    ensures { (scope : Facts) (oracle : Oracle) (text : List ℕ) →
        length (text_value scope oracle text) ≤ 65536 }
{}

/// A form has a value only of 65,536 bytes at most, and only where the sums are within their limits
/// after it: 1,048,576 bytes of the names that are defined, as many of the values that they got, and
/// 16,777,216 of the values of forms.
pub fn forms_stay_within()
    ensures { (scope : Facts) (oracle : Oracle) (levels : ℕ) (text value : List ℕ)
        (before after : Progress) → form_at scope oracle levels text before ≡ Some (value, after) →
        (length value ≤ 65536) × SumsFit after }
{}
