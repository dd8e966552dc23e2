//! What the draws make a call.

ghost use Rattle.std.specs.Prelude.{◌≡◌, ◌<◌, ◌^◌, ◌+◌, ◌%◌};
ghost use Rattle.workload.specs.Calls.{choice_at, kind_at, kind_of};
ghost use Rattle.workload.specs.Draws.{draw_of, drawn};

/// What a call is.
#[derive(Clone, Copy, Debug, PartialEq, Eq)]
pub(crate) enum Kind {
    /// The names of the root.
    Listing,
    /// The object of a name.
    Finding,
    /// Content is written.
    Writing,
    /// Content is read.
    Reading,
    /// Attributes are asked for.
    Asking,
    /// A name is removed.
    Removing,
    /// A file is made.
    Making,
    /// A snapshot is taken.
    Keeping,
}

/// What a call is, and for which name.
#[derive(Clone, Copy, Debug, PartialEq, Eq)]
pub(crate) struct Choice {
    /// What it is.
    pub kind: Kind,
    /// The number of its name.
    pub name: u8,
    /// The third draw, of which a write and a fuse are made.
    pub piece: u64,
}

/// The state after one draw more.
pub(crate) fn drawn(state: u64) -> u64
    requires { state < 2 ^ 31 }
    ensures next { result ≡ drawn state }
    ensures low { result < 2 ^ 31 }
{
    (1_103_515_245 * state + 12_345) % 2_147_483_648
}

/// What the draw gives that led to this state.
pub(crate) fn draw_of(state: u64) -> u64
    ensures { result ≡ draw_of state }
{
    state / 65_536
}

/// What the first draw makes a call.
fn kind_of(draw: u64) -> Kind
    ensures { result ≡ kind_of draw }
{
    match draw {
        0 => Kind::Listing,
        1 => Kind::Finding,
        3 => Kind::Reading,
        4 => Kind::Asking,
        5 => Kind::Removing,
        6 => Kind::Making,
        _ => Kind::Writing,
    }
}

/// What the call of this number is, by its first draw.
fn kind_at(number: u32, draw: u64) -> Kind
    ensures { result ≡ kind_at number draw }
{
    if number % 512 == 0 {
        Kind::Keeping
    } else {
        kind_of(draw % 8)
    }
}

/// What the call of this number is, and the state after its three draws.
#[tactic(auto, unfolding(crate::specs::Calls::choice_at))]
pub(crate) fn choose(number: u32, state: u64) -> (Choice, u64)
    requires { state < 2 ^ 31 }
    ensures choice { result.0 ≡ choice_at number state }
    ensures next { result.1 ≡ drawn (drawn (drawn state)) }
    ensures low { result.1 < 2 ^ 31 }
{
    let first = drawn(state);
    let second = drawn(first);
    let third = drawn(second);
    let choice = Choice {
        kind: kind_at(number, draw_of(first)),
        name: (draw_of(second) % 256) as u8,
        piece: draw_of(third),
    };
    (choice, third)
}
