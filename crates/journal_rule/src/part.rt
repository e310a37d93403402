/// The parts of the rule by which a journal is judged, in the order in which a broken one is named. Each is this project's
/// own choice.
#[derive(Clone, Copy, Debug, PartialEq, Eq)]
pub enum Part {
    /// The calls are the script's, each on its lane, and there are a wire for each server and a list for each lane.
    Calls,
    /// The ranges of ids of each slot begin at version 1 and follow each other.
    Ranges,
    /// Each call ends with the last entry of its log.
    Ends,
    /// What went out is what the machines of the calls send.
    Requests,
    /// Entries and their sources name each other.
    Sources,
    /// What was found gone was so, by the word that showed it.
    GoneWords,
    /// Strays and what was dropped were rightly so.
    Strays,
    /// Each mark that fired is one that its call set.
    Marks,
    /// Each loss is one of an attempt that was sent on its wire.
    Losses,
    /// The cancels of each lane are the script's.
    Cancels,
}
