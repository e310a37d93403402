/// What a server of an echo service does with a request. It is this project's own choice.
#[derive(Clone, Copy, Debug, PartialEq, Eq)]
pub enum Direction {
    /// It answers code 0 with the request's payload.
    Plain,
    /// It answers this code, 1 to 65,535, with an empty payload.
    Err(u32),
    /// It answers nothing.
    Drop,
    /// It answers as `Plain` does, two times.
    Twice,
    /// It waits for so many milliseconds, 1 to 60,000, and answers as `Plain` does.
    Delay(u64),
    /// It closes the connection without an answer.
    Close,
}
