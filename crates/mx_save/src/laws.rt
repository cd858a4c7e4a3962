//! What holds of every history of a folder, and of every name of a part. Each law is a function that does nothing: its contract is the law.
ghost use Rattle.mx_save.specs.Laws.{WholeAfterLossOfPower, PartsAreDistinct};

/// If only whole bodies that were flushed came under names of files, then a loss of power at any moment leaves under each such name either
/// one of these bodies, whole, or what it could have left there before.
pub fn whole_after_loss_of_power<B>()
    ensures { WholeAfterLossOfPower B }
{}

/// The name of a part determines its process and its number: no two parts have the same name.
pub fn parts_are_distinct()
    ensures { PartsAreDistinct }
{}
