//! What a call's draw says of it.

ghost use Rattle.std.specs.Prelude.{◌≡◌, ◌<◌, ◌^◌};
ghost use Rattle.script_gen.specs.Generator.{next_draw, channel_of, code_of, name_of, leaf_of};

/// The channel that a call is on, by its name in the generated script.
#[derive(Clone, Copy)]
pub(crate) enum Channel {
    /// A plain channel.
    X,
    /// Another plain channel.
    Y,
    /// A parallel channel over both.
    P,
    /// A selective channel over the parallel one and a plain one.
    S,
}

impl Channel {
    /// The channel's name in the script.
    pub(crate) fn name(self) -> &'static str
        ensures { result.now ≡ name_of self }
    {
        match self {
            Channel::X => "x",
            Channel::Y => "y",
            Channel::P => "p",
            Channel::S => "s",
        }
    }

    /// The leaf of the plan of the call of this number to which the reply comes.
    pub(crate) fn leaf(self, call: u64) -> u32
        ensures { result ≡ leaf_of self call }
    {
        match self {
            Channel::X | Channel::Y => 0,
            Channel::P => 1,
            Channel::S => { if call % 2 == 1 { 1 } else { 2 } }
        }
    }
}

/// The draw after this one.
pub(crate) fn next_draw(draw: u64) -> u64
    requires { draw < 2 ^ 32 }
    ensures { result ≡ next_draw draw }
{
    (draw * 1_103_515_245 + 12_345) % 2_147_483_648
}

/// The channel of the call with this draw.
pub(crate) fn channel_of(draw: u64) -> Channel
    ensures { result ≡ channel_of draw }
{
    match draw / 65_536 % 4 {
        0 => Channel::X,
        1 => Channel::Y,
        2 => Channel::P,
        _ => Channel::S,
    }
}

/// The code of the reply to the call with this draw.
pub(crate) fn code_of(draw: u64) -> u32
    ensures { result ≡ code_of draw }
{
    match draw / 1_024 % 3 {
        0 => 0,
        1 => 1_009,
        _ => 2_001,
    }
}
