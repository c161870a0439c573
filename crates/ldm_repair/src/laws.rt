//! What holds of every repair.
ghost use Rattle.ldm_repair.specs.Closing.{ClosingKeepsGroup, GoodIsPast, OneGroupPast};
ghost use Rattle.ldm_repair.specs.Turns.{DamagedTurnsHoldOne};

/// A law, which does nothing: while damaged copies are closed, the images hold past damage the one
/// group that they held; and a group that opens is held past damage too.
pub fn repairs_keep_the_group()
    ensures closing { ClosingKeepsGroup }
    ensures good { GoodIsPast }
    ensures one { OneGroupPast }
{}

/// A law, which does nothing: where copies are damaged after a stop in the middle of a command, and
/// an open one is left, the images hold past damage the group before the command or the one after
/// it.
pub fn damaged_turns_hold_one_of_both()
    ensures { DamagedTurnsHoldOne }
{}
