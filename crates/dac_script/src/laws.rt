//! The laws of script lines, each as a clause of an empty function.
ghost use Rattle.dac_script.specs.InWords.{AcceptedInWords, CommentsInWords, LinesInWords, WordsInWords};
ghost use Rattle.dac_script.specs.LiveInWords.{LiveAcceptedInWords, LiveCommentsInWords, LiveLinesInWords};
ghost use Rattle.dac_script.specs.OwnWords.{DividedInWords, OnlySpacesSeparate};

/// Which lines of `sim` are accepted, for every configuration. Words are separated by spaces. Words that spell a line
/// have no fault and spell no other line, so a line is read as a value exactly if it spells that value.
///
/// The last three clauses write out in bytes, without the definitions that the readers cite, that only spaces separate
/// words, that exactly empty lines and lines that begin with `%` are skipped, and that an input is divided at its first
/// line `--`.
pub fn accepted_lines_in_words()
    ensures words { WordsInWords }
    ensures lines { LinesInWords }
    ensures accepted { AcceptedInWords }
    ensures spaces { OnlySpacesSeparate }
    ensures comments { CommentsInWords }
    ensures divided { DividedInWords }
{}

/// Which lines of `live` are accepted, for every configuration. Words that spell a line have no fault and spell no
/// other line. A caller's number is followed by `read` or by a request, spelled as in `sim`. The lines that are skipped
/// are those of `sim`.
pub fn accepted_live_lines_in_words()
    ensures lines { LiveLinesInWords }
    ensures accepted { LiveAcceptedInWords }
    ensures comments { LiveCommentsInWords }
{}
