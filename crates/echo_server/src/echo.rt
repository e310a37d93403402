ghost use Rattle.std.specs.Prelude.{◌≡◌, ◌≤◌, ◌++◌, ◌↔◌, IfOk, OnOk, OnErr, IsTrue, All};
ghost use Rattle.echo_server.specs.Answers.{IsDirection, reply_with, error_answer, echo_answer, no_answer, directed, request_answer, direction, turned, answer_of, after};

use crate::answer::Answer;
use prpc_frames::Frame;
use rpc_base::{Bytes, NoMemory};
use rpc_meta::{Meta, RequestMeta, ResponseMeta};
use rpc_model::{Direction, ENOMETHOD, ENOSERVICE};
use std::alloc::Global;
use std::marker::Model;

/// The one service that the server has.
pub const SERVICE: &[u8] = b"rpc.Echo";

/// The one method of the service.
pub const METHOD: &[u8] = b"Echo";

/// The directions of an echo server, in turn: the request with so many before it follows the direction of that number,
/// counted from 0, modulo their number. Without directions every request is plain.
#[derive(Debug, Drop)]
pub struct Echo {
    words: Vec<Direction>,
    at: usize,
}

impl Model for Echo {
    ghost use Rattle.std.specs.Prelude.{◌≤◌, vec_len, All};
    ghost use Rattle.echo_server.specs.Answers.{Turn, IsDirection};

    ghost Value = { Turn };

    ghost view = { λ e. record { words = e.words.items; at = e.at } };

    ghost invariant = { λ e. (e.at ≤ vec_len e.words) × All IsDirection e.words.items };
}

impl Echo {
    /// A server that has answered nothing. It takes no memory.
    pub fn open(words: Vec<Direction>) -> Echo
        requires { All IsDirection words.items }
        ensures { result ≡ record { words = words.items; at = 0 } }
    {
        Echo { words, at: 0 }
    }

    /// The direction of the next request.
    fn direction(&self) -> Direction
        ensures is { result ≡ direction self.now }
        ensures allowed { IsDirection result }
    {
        match self.words.get(self.at) {
            Some(next) => *next,
            None => Direction::Plain,
        }
    }

    /// Goes on to the direction after it, or to the first after the last.
    fn turn(&mut self)
        ensures { self.new ≡ turned self.old }
    {
        let next = self.at + 1;
        self.at = if next < self.words.len() { next } else { 0 };
    }

    /// The answer to a frame. A frame without a request is passed over and uses no direction. A request for another
    /// service is answered with `ENOSERVICE`, else one for another method with `ENOMETHOD`; each uses a direction all
    /// the same. After want of memory the server is as before.
    pub fn answer(&mut self, alloc: Global, frame: &Frame) -> Result<Answer, NoMemory>
        ensures answer { IfOk result (λ a. a ≡ answer_of self.old frame.now) }
        ensures turn { OnOk result (self.new ≡ after self.old frame.now) }
        ensures same { OnErr result (self.new ≡ self.old) }
    {
        let Some(request) = &frame.meta.request else {
            return Ok(not_answered(false));
        };
        let answer = request_answered(alloc, self.direction(), request, frame)?;
        self.turn();
        Ok(answer)
    }
}

/// Whether a server may have these directions, as `Echo::open` asks: each code of an `Err` is 1 to 65,535.
pub fn are_directions(words: &[Direction]) -> bool
    ensures { IsTrue result ↔ All IsDirection words.now }
{
    words.iter().all(|word| is_direction(word))
}

fn is_direction(word: &Direction) -> bool
    ensures { IsTrue result ↔ IsDirection word.now }
{
    match word {
        Direction::Err(code) => 1 <= *code && *code <= 65_535,
        _ => true,
    }
}

/// The answer to a request.
fn request_answered(
    alloc: Global,
    direction: Direction,
    request: &RequestMeta,
    frame: &Frame,
) -> Result<Answer, NoMemory>
    requires { IsDirection direction }
    ensures { IfOk result (λ a. a ≡ request_answer direction request.now frame.now) }
{
    if request.service.list() != SERVICE {
        return Ok(error_answered(alloc, ENOSERVICE, frame));
    }
    if request.method.list() != METHOD {
        return Ok(error_answered(alloc, ENOMETHOD, frame));
    }
    match direction {
        Direction::Plain => echo_answered(alloc, 1, 0, frame),
        Direction::Err(code) => Ok(error_answered(alloc, code, frame)),
        Direction::Drop => Ok(not_answered(false)),
        Direction::Twice => echo_answered(alloc, 2, 0, frame),
        Direction::Delay(ms) => echo_answered(alloc, 1, ms, frame),
        Direction::Close => Ok(not_answered(true)),
    }
}

fn not_answered(close: bool) -> Answer
    ensures { result ≡ no_answer close }
{
    Answer {
        reply: None,
        times: 0,
        nap: 0,
        close,
    }
}

/// One reply with this code and no payload.
fn error_answered(alloc: Global, code: u32, frame: &Frame) -> Answer
    requires { code ≤ 65535 }
    ensures { result ≡ error_answer code frame.now }
{
    Answer {
        reply: Some(reply(code, Vec::new(alloc), alloc, frame)),
        times: 1,
        nap: 0,
        close: false,
    }
}

/// The request's payload so many times, after so many milliseconds.
fn echo_answered(alloc: Global, times: u32, nap: u64, frame: &Frame) -> Result<Answer, NoMemory>
    ensures { IfOk result (λ a. a ≡ echo_answer times nap frame.now) }
{
    let payload = Vec::from_slice(alloc, frame.payload.list())?;
    Ok(Answer {
        reply: Some(reply(0, payload, alloc, frame)),
        times,
        nap,
        close: false,
    })
}

/// A reply with the request's id, where it has one.
fn reply(code: u32, payload: Vec<u8>, alloc: Global, frame: &Frame) -> Frame
    requires { code ≤ 65535 }
    ensures { result ≡ reply_with code payload.items frame.now }
{
    Frame {
        meta: Meta {
            request: None,
            response: Some(ResponseMeta {
                code: Some(code as i32),
                text: None,
            }),
            compress: None,
            correlation: frame.meta.correlation,
            attachment: None,
        },
        payload: Bytes::of(payload),
        attachment: Bytes::of(Vec::new(alloc)),
    }
}
