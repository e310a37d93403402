use rpc_base::List;

/// A channel, with these kinds of mapper and merger. Channels stand in a list, and a channel is named by its number
/// there, counted from 0. It names its subs by their numbers, which are smaller than its own.
#[derive(Debug, Drop)]
pub enum Chan<M, G> {
    /// A plain channel.
    Leaf(LeafChan),
    /// A parallel channel: all its subs are asked at once, and their answers are merged.
    Par(ParChan<M, G>),
    /// A selective channel: one sub is asked, and another one where that fails.
    Sel(SelChan),
    /// A partition channel: a parallel channel over the parts of servers with tags.
    Part(PartChan<M, G>),
}

/// A plain channel: brpc's `Channel` over a list of servers.
#[derive(Debug, Drop)]
pub struct LeafChan {
    /// The servers by number, in the order in which the line gives them; at least one, repeats allowed.
    pub servers: List<u32>,
    /// How many attempts may follow the first, 0 to 100.
    pub retry: u32,
    /// The milliseconds after which a backup request is sent, 1 to 2,147,483,647, or none.
    pub backup: Option<u32>,
    /// The milliseconds from the start to the deadline, 1 to 2,147,483,647, or none.
    pub timeout: Option<u32>,
}

/// A parallel channel: brpc's `ParallelChannel`.
#[derive(Debug, Drop)]
pub struct ParChan<M, G> {
    /// What is asked, in order; at least one.
    pub subs: List<Sub<M, G>>,
    /// How many failed subs end the call, 0 to 1,000. 0 stands for the number of subs that are asked.
    pub fail: u32,
    /// How many subs that succeeded end the call, 0 to 1,000. 0 stands for the number of subs that are asked.
    pub ok: u32,
    /// The milliseconds from the start to the deadline, 1 to 2,147,483,647, or none.
    pub timeout: Option<u32>,
}

/// A sub channel of a parallel channel.
#[derive(Clone, Copy, Debug, PartialEq, Eq)]
pub struct Sub<M, G> {
    /// What makes its request.
    pub map: M,
    /// What merges its answer.
    pub merge: G,
    /// The number of its channel.
    pub chan: u32,
}

/// A selective channel: brpc's `SelectiveChannel`.
#[derive(Debug, Drop)]
pub struct SelChan {
    /// The numbers of the channels that may be tried; at least one, repeats allowed.
    pub subs: List<u32>,
    /// How many tries may follow the first, 0 to 100.
    pub retry: u32,
    /// The milliseconds from the start to the deadline, 1 to 2,147,483,647, or none.
    pub timeout: Option<u32>,
}

/// A partition channel: brpc's `PartitionChannel`, over servers with tags.
#[derive(Debug, Drop)]
pub struct PartChan<M, G> {
    /// How many parts there are, 1 to 100.
    pub parts: u32,
    /// The servers with their tags, in order.
    pub tags: List<Tag>,
    /// What makes the request of each part.
    pub map: M,
    /// What merges the answer of each part.
    pub merge: G,
    /// How many attempts may follow the first at each part, 0 to 100.
    pub retry: u32,
    /// The milliseconds after which a part's backup request is sent, 1 to 2,147,483,647, or none.
    pub backup: Option<u32>,
    /// How many failed parts end the call, as in a parallel channel.
    pub fail: u32,
    /// How many parts that succeeded end the call, as in a parallel channel.
    pub ok: u32,
    /// The milliseconds from the start to the deadline, 1 to 2,147,483,647, or none.
    pub timeout: Option<u32>,
}

/// A server's tag `part/of`: it has this part of so many.
#[derive(Clone, Copy, Debug, PartialEq, Eq)]
pub struct Tag {
    pub server: u32,
    /// The part, counted from 0; less than `of`.
    pub part: u32,
    /// How many parts there are by this tag. A tag with another count than the channel's is left aside.
    pub of: u32,
}
