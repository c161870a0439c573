//! How the sequence counts the lines that are done.
ghost use Rattle.ldm_edits.specs.Counting.{SequenceCounts};

/// That the sequence counts the lines that are done: each takes it one further, and one that is
/// refused leaves it. The call does nothing.
pub fn sequence_counts_lines()
    ensures { SequenceCounts }
{}
