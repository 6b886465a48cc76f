//! The greatest sizes of the searches of a case.

ghost use Rattle.std.specs.Prelude.{◌<◌};
ghost use Rattle.roster_instance.specs.Meaning.{Meaning, nurse_count};
ghost use Rattle.roster_instance.specs.Sizes.{state_count};
ghost use Rattle.roster_laws.specs.Greatest.{IsGreatest, extension_count, greatest_extension_count, greatest_state_count};

/// The greatest numbers of states and of extensions are at least those of each nurse, and equal to those of
/// one of them.
pub fn greatest_sizes()
    ensures states { (c : Meaning) → 0 < nurse_count c →
        IsGreatest (nurse_count c) (state_count c) (greatest_state_count c) }
    ensures extensions { (c : Meaning) → 0 < nurse_count c →
        IsGreatest (nurse_count c) (extension_count c) (greatest_extension_count c) }
{}
