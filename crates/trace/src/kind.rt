// The kinds of records: the byte that each begins with, and how long its body is.
ghost use Rattle.std.specs.Prelude.{◌≡◌};
ghost use Rattle.rules.specs.Trace.{layout, total};
ghost use Rattle.trace.specs.Kinds.{code, kind_in, Decodes};

use rules::refusals::Refusal;
use rules::trace::Record;

// "Setup: 1 node .. After start: .. 7 vrate"; request One's "trace record 8"
#[derive(Clone, Copy, Debug, PartialEq, Eq)]
pub enum Kind {
    Node = 1,
    Model,
    Start,
    Bio,
    Tick,
    Plan,
    Vrate,
    Weight,
}

impl Kind {
    // Of what kind a record is.
    // Kept (point 4): a method and no `From`: the pages name it, and say by it of what kind a record is.
    pub fn of(r: Record) -> Self
        ensures { result ≡ kind_in r }
    {
        match r {
            Record::Node(..) => Self::Node,
            Record::Model(_) => Self::Model,
            Record::Start(_) => Self::Start,
            Record::Bio(_) => Self::Bio,
            Record::Tick(_) => Self::Tick,
            Record::Plan => Self::Plan,
            Record::Vrate(_) => Self::Vrate,
            Record::Weight(..) => Self::Weight,
        }
    }

    // "then a body whose .."
    #[tactic(auto, unfolding(rules::specs::Trace::layout))]
    pub fn body_len(self) -> usize
        ensures { result ≡ total (layout (code self)) }
    {
        match self {
            Self::Node | Self::Weight => 3,
            Self::Model => 48,
            Self::Start | Self::Tick => 8,
            Self::Bio => 18,
            Self::Plan => 0,
            Self::Vrate => 2,
        }
    }
}

impl From<Kind> for u8 {
    ghost from_gives = { λ kind byte. byte ≡ code kind };

    fn from(kind: Kind) -> u8 {
        kind as u8
    }
}

impl TryFrom<u8> for Kind {
    type Error = Refusal;

    ghost try_from_gives = { Decodes };

    #[tactic(auto, unfolding(rules::specs::Trace::is_kind))]
    fn try_from(byte: u8) -> Result<Self, Refusal> {
        match byte {
            1 => Ok(Self::Node),
            2 => Ok(Self::Model),
            3 => Ok(Self::Start),
            4 => Ok(Self::Bio),
            5 => Ok(Self::Tick),
            6 => Ok(Self::Plan),
            7 => Ok(Self::Vrate),
            8 => Ok(Self::Weight),
            _ => Err(Refusal::UnknownKind),
        }
    }
}
