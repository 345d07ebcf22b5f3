//! Laws of the definitions: functions that do nothing, whose contracts are the laws.
ghost use Rattle.es_text.specs.Spans.{PartsLie};
ghost use Rattle.es_text.specs.Within.{CommentsLie, FirstOffsetsLie, TokensLie};

/// A token lies in its text, behind the offset from which it is read, and so do the comments between
/// tokens, and the first offset behind what is skipped.
pub fn tokens_lie()
    ensures tokens { TokensLie }
    ensures comments { CommentsLie }
    ensures first_offsets { FirstOffsetsLie }
{}

/// What the test of a span tells.
pub fn parts_lie()
    ensures { PartsLie }
{}
