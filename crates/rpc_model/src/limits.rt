//! The limits of scripts and of what they name, each this project's own choice.

/// The greatest length of a script, in bytes.
pub const SCRIPT_LIMIT: usize = 16_777_216;
/// The greatest length of a line, in bytes without its newline.
pub const LINE_LIMIT: usize = 65_536;
/// The greatest number of channels.
pub const CHANNEL_LIMIT: usize = 1_000;
/// The greatest number of servers that the channels name together.
pub const SERVER_LIMIT: usize = 16;
/// The greatest number of server names in one word.
pub const SERVER_NAME_LIMIT: usize = 16;
/// The greatest number of words at the end of a line that may have several there: the sub channels of a channel, the
/// servers of a partition channel and the directions of a server.
pub const SUB_LIMIT: usize = 1_000;
/// The greatest number of failed subs, or of subs that succeeded, at which a channel may end its call.
pub const END_LIMIT: u64 = 1_000;
/// The greatest number of parts of a partition channel.
pub const PART_LIMIT: u64 = 100;
/// The greatest number of parts that a server's tag may name.
pub const TAG_LIMIT: u64 = 1_000;
/// The greatest depth of a channel: a plain one has depth 1, a partition channel 2, and another one is one deeper than
/// its deepest sub.
pub const DEPTH_LIMIT: u32 = 8;
/// The greatest width of a call's plan, in nodes and possible attempts together.
pub const WIDTH_LIMIT: u32 = 1_024;
/// The greatest number of calls of a script that is replayed.
pub const SIM_CALL_LIMIT: usize = 100_000;
/// The greatest number of calls of a script that is run against servers.
pub const LIVE_CALL_LIMIT: usize = 4_096;
/// The greatest number of lines of replies, losses, cancels, ticks and joins together.
pub const EVENT_LIMIT: u64 = 400_000;
/// The greatest number of calls that may be open at once.
pub const SLOT_LIMIT: u64 = 4_096;
/// How many calls may be open at once where the script doesn't say.
pub const DEFAULT_SLOTS: u32 = 1_024;
/// The greatest number of attempts that may follow the first.
pub const RETRY_LIMIT: u64 = 100;
/// The latest moment that a line may name, in milliseconds: 2^53 - 1.
pub const MOMENT_LIMIT: u64 = 9_007_199_254_740_991;
/// The longest wait for a backup request or a deadline, in milliseconds: 2^31 - 1.
pub const WAIT_LIMIT: u64 = 2_147_483_647;
/// The greatest number of a call.
pub const CALL_NUMBER_LIMIT: u64 = 1_000_000_000;
/// The greatest code of a reply or a loss.
pub const CODE_LIMIT: u64 = 65_535;
/// The longest wait of a server before an answer, in milliseconds.
pub const DELAY_LIMIT: u64 = 60_000;
/// The greatest length of a channel's or a server's name, in bytes.
pub const NAME_LIMIT: usize = 32;
/// The greatest length of a text, in bytes.
pub const TEXT_LIMIT: usize = 60_000;
/// What a call weighs beside its text, for each attempt that it may issue.
pub const ATTEMPT_WEIGHT: u64 = 128;
/// The greatest sum, over the calls of a script that is replayed, of (length of the text + `ATTEMPT_WEIGHT`) times the
/// attempts that the call may issue: 2^30.
pub const SIM_WEIGHT_LIMIT: u64 = 1_073_741_824;
/// The same for a script that is run against servers: 2^24.
pub const LIVE_WEIGHT_LIMIT: u64 = 16_777_216;
