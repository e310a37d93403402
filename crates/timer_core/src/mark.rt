/// A timer's entry: at its moment, the deadline or the backup request of a node is due.
#[derive(Clone, Copy, Debug, PartialEq, Eq)]
pub struct Mark {
    /// When it is due, in milliseconds.
    pub moment: u64,
    /// Which of the marks of one moment comes first: twice the node's number, plus 1 for a backup request. So the node
    /// of the lower number comes first, and its deadline before its backup request.
    pub rank: u32,
    /// The id of the node.
    pub id: u64,
    /// What is due: 1008 for a deadline, 1007 for a backup request.
    pub code: u32,
}
